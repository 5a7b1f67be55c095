// The story of the mixer, whose program is in examples/, up to its trial: what it uses, what two units declare, and the move of the block as one of them
// declares it, which is refused.
ghost use Rattle.calls.specs.declared.results.Status.TheVariants.{Answered};
ghost use Rattle.std.specs.Prelude.{◌≢◌, IfErr};

use calls::output::{Descriptor, Outputs};
use calls::results::Outcome;
use calls::{files, results, text};
use ec20::UseMap;
use std::fmt;
use std::fmt::Write;
use std::rt::Files;
use telling::{report, spans};
use unit_commands::lists;

fn tell_map(m: UseMap, mut out: Descriptor) -> fmt::Result {
    let read = m.read;
    let written = m.written;
    write!(
        out,
        "The mixer: examples/mixer.ec20, with a listing in examples/mixer.txt.
Two routines share a block of D words. While the mixer fills (X0 on), the recipe routine
keeps six 16-bit words there. While it empties (X1 on), the totals routine keeps 32-bit
pairs in the same words. Unit 1 declares the block as D100-D105, unit 2 as D100-D106. It is
to have a place of its own among D300-D399.

1. The words that the program uses:
"
    )?;
    spans::show(out, &read, &written)
}

// The clash of the declarations in a unit list, and the split.
fn tell_units(list: &[u8], old: &[u8], mut out: Descriptor) -> fmt::Result {
    write!(
        out,
        "
2. What both units declare, examples/mixer.units: a clash, and a block that the program itself
   reaches over:
"
    )?;
    lists::show(unit_texts::read(list), old, out).unwrap_or(Ok(()))
}

// The block as unit 1 declares it, D100-D105, in the pool D300-D399.
fn tell_move(file: &mut [u8], mut out: Descriptor) -> fmt::Result {
    match mover::move_block(file, 100, 6, 300, 400) {
        Err(refusal) => report::torn(out, file, refusal),
        Ok(_) => writeln!(out, "   it goes through"),
    }
}

fn tell_declared(old: &[u8], new: &mut [u8], mut out: Descriptor) -> fmt::Result {
    write!(
        out,
        "
3. The move of the block as unit 1 declares it, D100-D105:
"
    )?;
    let n = old.len();
    if n > new.len() {
        return Ok(());
    }
    new[..n].copy_from_slice(old);
    tell_move(&mut new[..n], out)
}

// The story from the unit list on, where what is ahead of it was written.
fn tell_rest(
    mapped: fmt::Result,
    list: &[u8],
    old: &[u8],
    new: &mut [u8],
    mut out: Descriptor,
) -> fmt::Result {
    mapped?;
    tell_units(list, old, out)?;
    tell_declared(old, new, out)?;
    write!(
        out,
        "
4. The move of the true block, D100-D106, and both programs side by side. Before each scan
   all inputs X are drawn anew; a scan has 100 ms and at most 1,000,000 steps.
   Told are the steps, the record stopped at, and the first error with its record (1 is
   a division by zero). Alike: both programs answer the same and, with block and place
   exchanged, leave the same memory.
"
    )
}

// The bytes of the program, which word 1 names, and a buffer for the moved one. Where the trial follows: whether the story was written; else what came of the
// call.
pub fn begin(
    rt: &impl Files,
    call: &[u8],
    old: &[u8],
    new: &mut [u8],
    to: Outputs,
) -> Result<fmt::Result, Outcome>
    ensures { IfErr result (λ o. o.status ≢ Answered) }
{
    let mapped = match usemap::use_map(old) {
        Ok(m) => tell_map(m, to.out),
        Err(refusal) => return Err(report::refused(text::word(call, 1), old, refusal, to)),
    };
    let mut list = io::large_buffer();
    match files::load(rt, text::word(call, 3), to.err, &mut list) {
        Ok(n) => Ok(tell_rest(mapped, &list[..n], old, new, to.out)),
        Err(_) => Err(results::not_tried()),
    }
}
