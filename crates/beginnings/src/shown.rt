// What a trial prints: the move, a line for a scan, how far it is, the sum of it.
ghost use Rattle.std.specs.Prelude.{◌≡◌, ◌+◌, ◌%◌, false, ◌⊎◌, ◌≢◌};
ghost use Rattle.calls.specs.declared.results.Status.TheVariants.{Answered, Refused, NotTried};
ghost use Rattle.turns.specs.Turns.{Alike};

use calls::output::{Descriptor, Outputs};
use calls::results;
use calls::results::{Outcome, Status};
use std::fmt;
use std::fmt::Write;
use telling::spans::Run;
use turns::turn;
use turns::turn::{Answer, Kind, Turn};

pub fn moved(mut out: Descriptor, block: Run, place: Run, changed: usize) -> fmt::Result {
    writeln!(out, "{block} to {place}, D numbers changed {changed}")
}

fn answer(mut out: Descriptor, a: Answer) -> fmt::Result {
    let kind = match a.kind {
        Kind::Refused => "refused",
        Kind::Ended => "ended",
        Kind::Watchdog => "watchdog",
    };
    write!(
        out,
        " {kind} steps {} record {} error {} record {}",
        a.steps, a.stop, a.error, a.at
    )
}

// The entry of the memory at a byte of its file: a table of bits, a D word, a T value, or the leftovers.
fn memory(mut out: Descriptor, byte: usize) -> fmt::Result {
    write!(out, ", memory first at ")?;
    match byte {
        0..=31 => write!(out, "X")?,
        32..=63 => write!(out, "Y")?,
        64..=313 => write!(out, "M")?,
        314..=345 => write!(out, "SM")?,
        346..=377 => write!(out, "T contacts")?,
        378..=16377 => write!(out, "D{}", (byte - 378) / 2)?,
        16378..=16889 => write!(out, "T value {}", (byte - 16378) / 2)?,
        _ => write!(out, "the leftovers")?,
    }
    write!(out, " (byte {byte})")
}

// What differs: the new program's answer, where it is another, and the first entry at which the memories are not the same, as the old
// program numbers it.
fn difference(mut out: Descriptor, t: Turn) -> fmt::Result {
    write!(out, " differs")?;
    if t.old != t.new {
        write!(out, ", new")?;
        answer(out, t.new)?;
    }
    if let Some(byte) = t.apart {
        memory(out, byte)?;
    }
    writeln!(out)
}

fn line(mut out: Descriptor, k: u32, t: Turn, alike: bool) -> fmt::Result {
    write!(out, "scan {}", k as usize + 1)?;
    answer(out, t.old)?;
    if alike {
        writeln!(out, " alike")
    } else {
        difference(out, t)
    }
}

// Whether the lines of a trial were written, how many of its scans differ, and what was counted since it was told how far it is.
#[derive(Clone, Copy)]
pub struct Sum {
    pub written: fmt::Result,
    pub differ: u32,
    pub work: usize,
}

// A sum of which nothing is told yet. written: whether all that is ahead of it was.
pub fn begun(written: fmt::Result) -> Sum
    ensures { (result.written ≡ written) × (result.differ ≡ 0) × (result.work ≡ 0) }
{
    Sum {
        written,
        differ: 0,
        work: 0,
    }
}

// How far the trial is, on `err`, each time that 50,000,000 more were counted. No clock is asked: what is counted is the old program's steps, and
// 30,000 for a scan itself. Answers what is counted after scan k.
fn progress(mut err: Descriptor, work: usize, k: u32, n: u32, steps: usize) -> usize {
    let more = work.wrapping_add(steps).wrapping_add(30000);
    if more < 50_000_000 {
        return more;
    }
    let _ = writeln!(err, "{} of {n} scans", k as usize + 1);
    0
}

// Scan k of n, from 0. The first 20 are told, and each that differs.
pub fn scan(s: Sum, k: u32, n: u32, t: Turn, to: Outputs) -> Sum
    ensures { (Alike t → result.differ ≡ s.differ) × ((Alike t → ⊥) → result.differ ≡ (s.differ + 1) % 4294967296) }
{
    let work = progress(to.err, s.work, k, n, t.old.steps);
    let alike = turn::is_alike(t);
    let mut written = s.written;
    if written.is_ok() & ((k < 20) | !alike) {
        written = line(to.out, k, t, alike);
    }
    let differ = if alike {
        s.differ
    } else {
        s.differ.wrapping_add(1)
    };
    Sum {
        written,
        differ,
        work,
    }
}

fn tell_sum(written: fmt::Result, mut out: Descriptor, n: u32, differ: u32) -> fmt::Result {
    written?;
    let scans = if n == 1 { "scan" } else { "scans" };
    write!(out, "{n} {scans}, ")?;
    match differ {
        0 => writeln!(out, "all alike"),
        1 => writeln!(out, "1 differs"),
        _ => writeln!(out, "{differ} differ"),
    }
}

// The last line, after n scans.
pub fn ended(n: u32, s: Sum, to: Outputs) -> Outcome
    ensures replaced { result.replaced ≡ false }
    ensures none_differs { s.differ ≡ 0 → (result.status ≡ Answered) ⊎ (result.status ≡ NotTried) }
    ensures some_differ { (s.differ ≢ 0) → (result.status ≡ Refused) ⊎ (result.status ≡ NotTried) }
{
    let written = tell_sum(s.written, to.out, n, s.differ);
    let status = if s.differ == 0 {
        Status::Answered
    } else {
        Status::Refused
    };
    results::answered(status, false, written, to.err)
}
