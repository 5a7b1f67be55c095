// The command ninhalto: its arguments are the words of a call. The answer goes to standard output, what is told of it in words to standard error,
// and what came of the call to descriptor 3, as a line: the status, with `replaced` after it where a file was.
#![tactic(auto)]

use calls::names::Command;
use calls::output::{Descriptor, Outputs};
use calls::results::Outcome;
use calls::{STDERR_FILENO, STDOUT_FILENO, arguments, asked, results};
use std::fmt::Write;
use std::fs::File;
use std::random::RandomSource;
use std::rt::{Clock, Files};

const STATUS_FILENO: i32 = 3;

// The command of a call.
fn chosen<R: Files<File = File> + RandomSource + Clock>(
    rt: &R,
    call: &[u8],
    to: Outputs,
) -> Outcome {
    match asked::command(call) {
        Some(command) if commands::scans(command) => commands::run(rt, command, call, to),
        Some(Command::Slave) => serving::run(rt, call, to),
        Some(command) if unit_commands::knows(command) => {
            unit_commands::run(rt, command, call, to)
        }
        Some(command) if job_commands::knows(command) => job_commands::run(rt, call, to),
        command => file_commands::run(rt, command, call, to),
    }
}

fn too_long(mut err: Descriptor) -> Outcome {
    let _ = writeln!(err, "ninhalto: the call is too long");
    results::not_tried()
}

fn main(rt: HostRuntime) {
    let to = Outputs {
        out: Descriptor(STDOUT_FILENO),
        err: Descriptor(STDERR_FILENO),
    };
    let mut call = io::large_buffer();
    let outcome = match arguments::gather(&rt, &mut call) {
        Some(n) => chosen(&rt, &call[..n], to),
        None => too_long(to.err),
    };
    results::tell(Descriptor(STATUS_FILENO), outcome);
}
