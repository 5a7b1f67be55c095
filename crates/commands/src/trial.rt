// trial OLD START LENGTH POOLSTART POOLEND MEMORY SCANS: a move tried out in memory. Old and new program run side by side for so many scans, and
// what they answer and leave is compared. No file is changed. demo FILE MEMORY UNITS: the same for the mixer, after the story of it.
ghost use Rattle.calls.specs.declared.results.Status.TheVariants.{Refused};
ghost use Rattle.demands.specs.Demand3.{with_exchange};
ghost use Rattle.ec20.specs.Move.{block};
ghost use Rattle.image.specs.Image.{plant_of};
ghost use Rattle.turns.specs.Turns.{MovedTo};
ghost use Rattle.std.specs.Prelude.{take, ◌≡◌};

use beginnings::shown::Sum;
use beginnings::trials::Begun;
use beginnings::{shown, trials};
use calls::names::Command;
use calls::output::Outputs;
use calls::results::{Outcome, Tried};
use memories::exchanges::Way;
use memories::{exchanges, tables};
use memory_scans::pairs;
use std::fmt;
use std::rt::Files;
use turns::images;

// The most steps that a scan of a trial may take, which is more than one without a budget may (document 02, (vi)).
const BUDGET: u32 = 1_000_000;

// The milliseconds of a scan of a trial: one unit of the 100 ms timers.
const ELAPSED: u32 = 100;

// n scans of each program, which is checked and made ready once, the old one over memory a, the new one over memory b, in which block and place are
// exchanged. The inputs are drawn anew before each. Of an accepted move none differs.
fn scans(
    old: &[u8],
    new: &[u8],
    a: &mut [u8; 16892],
    b: &mut [u8; 16892],
    w: Way,
    n: u32,
    written: fmt::Result,
    to: Outputs,
) -> Sum
    ensures { MovedTo old.now (block w.start w.length) w.place new.now → plant_of b.old ≡ with_exchange (block w.start w.length) w.place (plant_of a.old) → result.differ ≡ 0 }
{
    let p = engine::make_ready(old);
    let old_goes = engine::look_up(old, p);
    let q = engine::make_ready(new);
    let new_goes = engine::look_up(new, q);
    let mut s = shown::begun(written);
    let mut state: u32 = 1;
    for k in 0..n {
        state = images::draw_inputs(a, b, state);
        let t = pairs::pair(
            old, p, &old_goes, new, q, &new_goes, a, b, w, ELAPSED, BUDGET,
        );
        s = shown::scan(s, k, n, t, to);
    }
    s
}

// The programs are the first `size` bytes of their buffers.
fn parts(
    old: &[u8],
    new: &[u8],
    size: usize,
    a: &mut [u8; 16892],
    b: &mut [u8; 16892],
    w: Way,
    n: u32,
    written: fmt::Result,
    to: Outputs,
) -> Sum
    ensures { MovedTo (take size old.now) (block w.start w.length) w.place (take size new.now) → plant_of b.old ≡ with_exchange (block w.start w.length) w.place (plant_of a.old) → result.differ ≡ 0 }
{
    if (size > old.len()) | (size > new.len()) {
        return shown::begun(Err(fmt::Error));
    }
    scans(&old[0..size], &new[0..size], a, b, w, n, written, to)
}

// Both programs from the same memory on, in which block and place are exchanged for the new one. The new program is the old one after an accepted move:
// so they are not found to differ.
fn run_moved(
    old: &[u8; 65536],
    new: &[u8; 65536],
    begun: Begun,
    memory: &[u8; 65536],
    n: u32,
    to: Outputs,
) -> Outcome
    requires { MovedTo (take begun.n old.now) (block begun.way.start begun.way.length) begun.way.place (take begun.n new.now) }
    ensures { result.status ≡ Refused → ⊥ }
{
    let w = begun.way;
    let mut a = tables::image();
    let mut b = tables::image();
    tables::start(memory, &mut a);
    tables::start(memory, &mut b);
    let _ = exchanges::in_image(&mut b, 16892, w);
    let s = parts(old, new, begun.n, &mut a, &mut b, w, n, begun.written, to);
    shown::ended(n, s, to)
}

// A trial, or the demo.
pub fn run(rt: &impl Files, command: Command, call: &[u8], to: Outputs) -> Tried<Outcome> {
    let t = trials::wanted(command, call, to.err)?;
    let mut old = io::large_buffer();
    let mut new = io::large_buffer();
    let mut memory = io::large_buffer();
    match trials::begin(rt, call, t, &mut old, &mut new, &mut memory, to) {
        Ok(begun) => Ok(run_moved(&old, &new, begun, &memory, t.scans, to)),
        Err(outcome) => Ok(outcome),
    }
}
