// Answers and refusals: a line to `out`, and what a refusal means to `err`.
ghost use Rattle.calls.specs.Results.{Answers};
ghost use Rattle.calls.specs.declared.results.Status.TheVariants.{Answered, Refused, NotTried};
ghost use Rattle.std.specs.Prelude.{◌≡◌, true, false};

use crate::spans::Run;
use crate::{names, replies};
use calls::output::{Descriptor, Outputs};
use calls::results;
use calls::results::{Outcome, Status};
use ec20::{Accepted, Refusal, Stop};
use std::fmt;
use std::fmt::{Display, Write};

pub fn accepted(a: Accepted, mut to: Outputs) -> Outcome
    ensures { Answers Answered false result }
{
    let written = writeln!(to.out, "accepted records {} steps {}", a.records, a.steps);
    results::answered(Status::Answered, false, written, to.err)
}

// A scan that was made, and whose memory was written.
pub fn scanned(stop: Stop, mut to: Outputs) -> Outcome
    ensures { Answers Answered true result }
{
    let (how, r) = match stop {
        Stop::Ended(r) => ("ended", r),
        Stop::Watchdog(r) => ("watchdog", r),
    };
    let written = writeln!(
        to.out,
        "{how} steps {} record {} error {} record {}",
        r.steps, r.stop, r.error, r.at
    );
    results::answered(Status::Answered, true, written, to.err)
}

pub fn moved(block: Run, place: Run, mut to: Outputs) -> Outcome
    ensures { Answers Answered true result }
{
    let written = writeln!(to.out, "moved {block} to {place}");
    results::answered(Status::Answered, true, written, to.err)
}

pub fn exchanged(block: Run, place: Run, mut to: Outputs) -> Outcome
    ensures { Answers Answered true result }
{
    let written = writeln!(to.out, "exchanged {block} with {place}");
    results::answered(Status::Answered, true, written, to.err)
}

// A torn file was salvaged, and what was kept of it was written. added: whether END was.
pub fn kept(count: usize, added: bool, rest: usize, mut to: Outputs) -> Outcome
    ensures { Answers Answered true result }
{
    let end = if added { "added" } else { "found" };
    let written = writeln!(to.out, "kept {count} end {end} rest {rest}");
    results::answered(Status::Answered, true, written, to.err)
}

// A request was answered by this reply, or by none. replaced: whether it changed the memory, which was written.
pub fn answered(reply: Option<&[u8]>, replaced: bool, mut to: Outputs) -> Outcome
    ensures { Answers Answered replaced result }
{
    let written = match reply {
        Some(bytes) => replies::show(to.out, bytes),
        None => writeln!(to.out, "silent"),
    };
    results::answered(Status::Answered, replaced, written, to.err)
}

// The number, with the record, if one is told, and its instruction's name: 2 to 7 and 13 are told at a record.
fn place(mut err: Descriptor, file: &[u8], refusal: Refusal) -> fmt::Result {
    let Refusal { number, at } = refusal;
    write!(err, ": refusal {number}")?;
    if matches!(number, 2..=7 | 13) {
        write!(err, " at record {at}")?;
        names::say_name(err, file, at)?;
    }
    Ok(())
}

// What a refusal means.
fn meaning(number: usize) -> &'static str {
    match number {
        1 => "under 8 bytes, or a wrong edition, record count, distance or comment length",
        2 => "unknown instruction, or spare byte not 0",
        3 => "an operand is not as the instruction allows, or an unused one is not zero",
        4 => "the target meets WORK, D7900 to D7999",
        5 => {
            "the rung rule is broken: flow is absent, or a stack is empty, full or not empty where it must not be"
        }
        6 => {
            "NEXT with no FOR open, a ninth open FOR, END not last, or the last record no END or in an open FOR"
        }
        7 =>
            "label set twice, or a CJ whose label does not stand later and directly in the same loop body",
        8 => "a scan may take more than 10,000,000 steps",
        9 => {
            "the memory file is not 16892 bytes long, its leftovers, the last two bytes, are above 9 or 99, or ELAPSED is above 10000"
        }
        10 => "the block is empty or not inside D0 to D7999",
        11 => "the pool starts above its end, or ends above 8000",
        12 => "the block meets WORK, D7900 to D7999",
        13 => "an operand is partly in the block",
        14 => "no place in the pool for the block",
        _ => "the station is not from 1 to 247",
    }
}

// Of an exchange, or of a request. The place of an exchange is named in the call, so that its 14 means another thing, and neither takes elapsed
// milliseconds or looks at the leftovers.
fn meaning_of_memory(number: usize) -> &'static str {
    match number {
        9 => "the memory file is not 16892 bytes long",
        14 => "the place is not inside D0 to D7999, meets the block, or meets WORK, D7900 to D7999",
        _ => meaning(number),
    }
}

fn answer_refused(refusal: Refusal, mut to: Outputs) -> Outcome
    ensures { Answers Refused false result }
{
    let written = writeln!(to.out, "refused {} record {}", refusal.number, refusal.at);
    results::answered(Status::Refused, false, written, to.err)
}

fn explain(mut err: Descriptor, path: &[u8], file: &[u8], refusal: Refusal) -> fmt::Result {
    err.put(path)?;
    place(err, file, refusal)?;
    writeln!(err, ": {}", meaning(refusal.number))
}

// path: the name of the file that is told; file: the program file, in which the record stands.
pub fn refused(path: &[u8], file: &[u8], refusal: Refusal, to: Outputs) -> Outcome
    ensures { Answers Refused false result }
{
    let outcome = answer_refused(refusal, to);
    let _ = explain(to.err, path, file, refusal);
    outcome
}

fn explain_by<D: Display + Drop>(mut err: Descriptor, path: &[u8], means: D) -> fmt::Result {
    err.put(path)?;
    writeln!(err, ": refusal {means}")
}

// The same, where what it means is named, from the number on.
pub fn refused_by<D: Display + Drop>(
    path: &[u8],
    refusal: Refusal,
    means: D,
    to: Outputs,
) -> Outcome
    ensures { Answers Refused false result }
{
    let outcome = answer_refused(refusal, to);
    let _ = explain_by(to.err, path, means);
    outcome
}

fn explain_memory(mut err: Descriptor, path: &[u8], number: usize) -> fmt::Result {
    err.put(path)?;
    writeln!(err, ": refusal {number}: {}", meaning_of_memory(number))
}

// Of an exchange, or of a request.
pub fn refused_memory(path: &[u8], refusal: Refusal, to: Outputs) -> Outcome
    ensures { Answers Refused false result }
{
    let outcome = answer_refused(refusal, to);
    let _ = explain_memory(to.err, path, refusal.number);
    outcome
}

// After a refusal: where it is 9 of a memory file of before, with so many bytes, what it needs.
pub fn of_before(number: usize, size: usize, mut err: Descriptor) {
    if (number == 9) & (size == 16890) {
        let _ = writeln!(
            err,
            "ninhalto: a memory file of before, of 16890 bytes, needs two zero bytes more at its end: the leftovers of the timers"
        );
    }
}

fn explain_still(mut err: Descriptor, path: &[u8], file: &[u8], refusal: Refusal) -> fmt::Result {
    err.put(path)?;
    write!(err, ": salvaged, but check refuses it")?;
    place(err, file, refusal)?;
    writeln!(err, ": {}", meaning(refusal.number))
}

// After a salvage: the check refuses what was written.
pub fn still_refused(path: &[u8], file: &[u8], refusal: Refusal, err: Descriptor) {
    let _ = explain_still(err, path, file, refusal);
}

// A record of the mixer's program reaches over the edge of the block.
pub fn torn(mut to: Descriptor, file: &[u8], refusal: Refusal) -> fmt::Result {
    let Refusal { number, at } = refusal;
    write!(to, "   refused by {number}: record {at}")?;
    names::say_name(to, file, at)?;
    write!(
        to,
        " reaches over the edge of the block.
   A move would tear its words apart: some would go and some would stay.
"
    )
}

pub fn usage(mut err: Descriptor) -> Outcome
    ensures { (result.status ≡ NotTried) × (result.replaced ≡ false) }
{
    let _ = writeln!(
        err,
        "usage: ninhalto check FILE, map [--picture] FILE, scan FILE MEMORY ELAPSED [BUDGET], move FILE START LENGTH POOLSTART POOLEND, exchange MEMORY START LENGTH PLACE, job FILE JOB [MEMORY], answer MEMORY STATION REQUEST, slave [--quiet] FILE MEMORY DEVICE STATION [SECONDS], clashes UNITS [FILE], longer TEXT1 TEXT2, trial OLD START LENGTH POOLSTART POOLEND MEMORY SCANS, demo, or help"
    );
    results::not_tried()
}
