// Runs the calls of the file `calls`, a call a line, with both descriptors at standard output, and tells what came of each. The first word of a line
// names the file of which `it` is a copy before the call, the second the file that `it` is like after it, or like with two bytes more: the leftovers of a
// slave, whose time is the clock's; the others are the call. The first is - where the call changes nothing, and closed where its answer is lost. It is both
// where two files may change, `it` and `that`: then four words name what `it` is before and after the call, and what `that` is.
#![tactic(auto)]

mod lines;
mod room;

use calls::names::Command;
use calls::output::{Descriptor, Outputs};
use calls::results::Outcome;
use calls::{STDOUT_FILENO, asked, text};
use check::same;
use std::fmt::Write;
use std::fs::File;
use std::random::RandomSource;
use std::rt::{Clock, Files};

// A descriptor that nothing has open, for the calls whose answer is to be lost.
const CLOSED: i32 = 1000;

fn say(text: &[u8]) {
    io::write_all(STDOUT_FILENO, text);
}

fn tell(outcome: Outcome) {
    let mut out = Descriptor(STDOUT_FILENO);
    let _ = write!(out, "= {outcome}");
}

// What the file of this name, `it` or `that`, is after the call. was: the file that it was before.
fn tell_file<R: Files>(rt: &R, name: &[u8], before: &[u8], after: &[u8], was: Option<R::File>) {
    say(b", ");
    say(name);
    if room::alike(rt, name, before) {
        say(b" as before");
    } else if room::alike(rt, name, after) {
        say(b" as ");
        say(after);
    } else if room::is_timed(rt, name, after) {
        say(b" as ");
        say(after);
        say(b" with leftovers");
    } else {
        say(b" is neither");
    }
    if room::is_at(rt, name, was) {
        say(b", the same file");
    } else {
        say(b", a new file");
    }
}

// The command of a call, as the program ninhalto chooses it.
fn chosen<R: Files<File = File> + RandomSource + Clock>(rt: &R, call: &[u8], out: i32) -> Outcome {
    let to = Outputs {
        out: Descriptor(out),
        err: Descriptor(STDOUT_FILENO),
    };
    match asked::command(call) {
        Some(command) if commands::scans(command) => commands::run(rt, command, call, to),
        Some(Command::Slave) => serving::run(rt, call, to),
        Some(command) if unit_commands::knows(command) => {
            unit_commands::run(rt, command, call, to)
        }
        Some(command) if job_commands::knows(command) => job_commands::run(rt, call, to),
        command => file_commands::run(rt, command, call, to),
    }
}

// A call over a copy of a file.
fn run_over<R: Files<File = File> + RandomSource + Clock>(
    rt: &R,
    before: &[u8],
    after: &[u8],
    call: &[u8],
) {
    room::put(rt, before, b"it");
    let was = room::open_append(rt, "it");
    tell(chosen(rt, call, STDOUT_FILENO));
    tell_file(rt, b"it", before, after, was);
}

// A call over copies of two files, which the words 1 to 4 of the line name.
fn run_both<R: Files<File = File> + RandomSource + Clock>(rt: &R, line: &[u8]) {
    room::put(rt, text::word(line, 1), b"it");
    room::put(rt, text::word(line, 3), b"that");
    let it = room::open_append(rt, "it");
    let that = room::open_append(rt, "that");
    tell(chosen(rt, text::rest(line, 5), STDOUT_FILENO));
    tell_file(rt, b"it", text::word(line, 1), text::word(line, 2), it);
    tell_file(rt, b"that", text::word(line, 3), text::word(line, 4), that);
}

// The line as a call.
fn run<R: Files<File = File> + RandomSource + Clock>(rt: &R, line: &[u8]) {
    let before = text::word(line, 0);
    let call = text::rest(line, 2);
    if same(before, b"-") {
        tell(chosen(rt, call, STDOUT_FILENO));
    } else if same(before, b"closed") {
        tell(chosen(rt, call, CLOSED));
    } else if same(before, b"both") {
        run_both(rt, line);
    } else {
        run_over(rt, before, text::word(line, 1), call);
    }
    say(b"\n");
}

// A line: a remark, or a call, which is told first. A longer line than the buffer is no call.
fn turn<R: Files<File = File> + RandomSource + Clock>(rt: &R, text: &[u8]) {
    say(text);
    say(b"\n");
    if lines::is_call(text) {
        let mut call = io::buffer();
        lines::to_call(text, &mut call);
        if text.len() < call.len() {
            run(rt, &call[..=text.len()]);
        }
    }
}

fn each<R: Files<File = File> + RandomSource + Clock>(rt: &R, list: &[u8]) {
    let mut at: usize = 0;
    while at < list.len() {
        let end = text::find(list, at, b'\n');
        turn(rt, &list[at..end]);
        at = end + 1;
    }
}

fn main(rt: HostRuntime) {
    let mut list = io::large_buffer();
    let n = room::load(&rt, b"calls", &mut list);
    each(&rt, &list[..n]);
}
