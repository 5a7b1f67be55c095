// trial OLD START LENGTH POOLSTART POOLEND MEMORY SCANS: a move tried out in memory. Here is what comes ahead of the first scan: the files are read, the
// program is moved in a copy, and the move is told. demo FILE MEMORY UNITS: the same for the mixer, after the story of it.
ghost use Rattle.std.specs.Prelude.{◌≡◌, ◌<◌, ◌≤◌, ◌↔◌, length, take, ◌≢◌, Ok, IsOk, IfOk, IfErr, IsTrue};
ghost use Rattle.beginnings.specs.Tried.{Named, all_named, of_mixer};
ghost use Rattle.calls.specs.declared.names.Command.TheVariants.{Demo};
ghost use Rattle.calls.specs.declared.results.Status.TheVariants.{Answered};
ghost use Rattle.ec20.specs.Move.{block};
ghost use Rattle.turns.specs.Turns.{MovedTo};

use crate::{changes, mixer, scans, shown};
use calls::names::Command;
use calls::output::{Descriptor, Outputs};
use calls::results::Outcome;
use calls::{numbers, results, text};
use ec20::Refusal;
use memories::exchanges::Way;
use std::fmt;
use std::rt::Files;
use telling::report;
use telling::spans::Run;

// A move of a program: the block and the pool, the scans that follow it, the word of the call that names the memory, and
// whether the mixer's story comes first. Word 1 names the program.
#[derive(Clone, Copy)]
pub struct Tried {
    pub start: u32,
    pub length: u32,
    pub pool_start: u32,
    pub pool_end: u32,
    pub scans: u32,
    pub memory_word: usize,
    pub told: bool,
}

fn named(call: &[u8], err: Descriptor) -> results::Tried<Tried>
    ensures some { IsOk result ↔ IsTrue (all_named call.now) }
    ensures value { IfOk result (λ t. Named call.now t) }
{
    let a = numbers::block_and_pool(call, err)?;
    let scans = numbers::word(call, 7, "SCANS", err)?;
    Ok(Tried {
        start: a.start,
        length: a.length,
        pool_start: a.pool_start,
        pool_end: a.pool_end,
        scans,
        memory_word: 6,
        told: false,
    })
}

// The mixer's block as it is, D100-D106, in the pool D300-D399, and 20 scans.
fn mixers() -> Tried
    ensures { result ≡ of_mixer }
{
    Tried {
        start: 100,
        length: 7,
        pool_start: 300,
        pool_end: 400,
        scans: 20,
        memory_word: 2,
        told: true,
    }
}

// What a trial asks for by its words, or the demo.
pub fn wanted(command: Command, call: &[u8], err: Descriptor) -> results::Tried<Tried>
    ensures demo { command ≡ Demo → result ≡ Ok of_mixer }
    ensures some { (command ≢ Demo) → (IsOk result ↔ IsTrue (all_named call.now)) }
    ensures value { (command ≢ Demo) → IfOk result (λ t. Named call.now t) }
{
    match command {
        Command::Demo => Ok(mixers()),
        _ => named(call, err),
    }
}

// What the scans begin with. written: whether all that is told ahead of them was; n: the bytes of each program.
#[derive(Clone, Copy)]
pub struct Begun {
    pub written: fmt::Result,
    pub n: usize,
    pub way: Way,
}

// The size of a memory file that no scan would take.
#[derive(Clone, Copy)]
struct Unfit {
    size: usize,
}

// The memory file is to be of the right size, with both leftovers in their ranges.
fn judged(memory: &[u8]) -> Result<(), Unfit> {
    let size = memory.len();
    if size == 16892 {
        if leftovers::fit(&memory[16890..]) {
            return Ok(());
        }
    }
    Err(Unfit { size })
}

// A memory file that no scan would take is refused by 9, which is told where none of 1 to 8 holds, before 10 to 14.
fn refuse(
    call: &[u8],
    old: &[u8],
    memory_word: usize,
    memory: Result<(), Unfit>,
    refusal: Refusal,
    to: Outputs,
) -> Outcome
    ensures { result.status ≢ Answered }
{
    match memory {
        Err(unfit) if refusal.number >= 9 => {
            let nine = Refusal { number: 9, at: 0 };
            let outcome = report::refused(text::word(call, memory_word), old, nine, to);
            report::of_before(9, unfit.size, to.err);
            outcome
        }
        _ => report::refused(text::word(call, 1), old, refusal, to),
    }
}

// A place is a number of a D word.
fn word_at(place: usize) -> u32
    ensures { place < 8000 → result ≡ place }
{
    if place < 8000 {
        return place as u32;
    }
    0
}

fn run(first: u32, length: u32) -> Run {
    Run {
        first: first as usize,
        length: length as usize,
    }
}

// The bytes of the old program and the same again, which are moved. ahead: whether what is told ahead of that was written.
fn move_copy(
    call: &[u8],
    old: &[u8],
    new: &mut [u8],
    memory: Result<(), Unfit>,
    t: Tried,
    ahead: fmt::Result,
    to: Outputs,
) -> Result<Begun, Outcome>
    requires { new.old ≡ old.now }
    ensures moved { IfOk result (λ b. MovedTo old.now (block b.way.start b.way.length) b.way.place new.new × (b.n ≡ length old.now)) }
    ensures stopped { IfErr result (λ o. o.status ≢ Answered) }
{
    let place = match mover::move_block(new, t.start, t.length, t.pool_start, t.pool_end) {
        Ok(place) => word_at(place),
        Err(refusal) => return Err(refuse(call, old, t.memory_word, memory, refusal, to)),
    };
    if memory.is_err() {
        let nine = Refusal { number: 9, at: 0 };
        return Err(refuse(call, old, t.memory_word, memory, nine, to));
    }
    let changed = changes::changed(old, new);
    let block = run(t.start, t.length);
    let there = run(place, t.length);
    let written = match ahead {
        Ok(()) => shown::moved(to.out, block, there, changed),
        lost => lost,
    };
    Ok(Begun {
        written,
        n: old.len(),
        way: Way {
            start: t.start,
            length: t.length,
            place,
        },
    })
}

// The bytes of the old program, and a buffer for the new one.
fn copied(
    call: &[u8],
    old: &[u8],
    new: &mut [u8],
    memory: Result<(), Unfit>,
    t: Tried,
    ahead: fmt::Result,
    to: Outputs,
) -> Result<Begun, Outcome>
    requires { length old.now ≤ length new.old }
    ensures moved { IfOk result (λ b. MovedTo old.now (block b.way.start b.way.length) b.way.place (take b.n new.new) × (b.n ≡ length old.now)) }
    ensures stopped { IfErr result (λ o. o.status ≢ Answered) }
{
    let n = old.len();
    new[..n].copy_from_slice(old);
    move_copy(call, old, &mut new[..n], memory, t, ahead, to)
}

// The story ahead of it, where it is to be told.
fn told(
    rt: &impl Files,
    call: &[u8],
    old: &[u8],
    new: &mut [u8],
    memory: Result<(), Unfit>,
    t: Tried,
    to: Outputs,
) -> Result<Begun, Outcome>
    requires { length old.now ≤ length new.old }
    ensures moved { IfOk result (λ b. MovedTo old.now (block b.way.start b.way.length) b.way.place (take b.n new.new) × (b.n ≡ length old.now)) }
    ensures stopped { IfErr result (λ o. o.status ≢ Answered) }
{
    let mut ahead = Ok(());
    if t.told {
        ahead = mixer::begin(rt, call, old, new, to)?;
    }
    copied(call, old, new, memory, t, ahead, to)
}

// The old program is the first n bytes of its buffer.
fn part(
    rt: &impl Files,
    call: &[u8],
    old: &[u8],
    n: usize,
    new: &mut [u8],
    memory: Result<(), Unfit>,
    t: Tried,
    to: Outputs,
) -> Result<Begun, Outcome>
    requires old_bound { n ≤ length old.now }
    requires new_bound { length old.now ≤ length new.old }
    ensures moved { IfOk result (λ b. MovedTo (take b.n old.now) (block b.way.start b.way.length) b.way.place (take b.n new.new)) }
    ensures stopped { IfErr result (λ o. o.status ≢ Answered) }
{
    told(rt, call, &old[..n], new, memory, t, to)
}

// Afterwards the old program is at the start of its buffer, the new one of its own, and the memory file of its own. Where the scans follow, the move was
// accepted: the new program is the old one with the block at its place. Else it is told what came of the call, which then counts as refused or not tried.
pub fn begin(
    rt: &impl Files,
    call: &[u8],
    t: Tried,
    old: &mut [u8; 65536],
    new: &mut [u8; 65536],
    memory: &mut [u8; 65536],
    to: Outputs,
) -> Result<Begun, Outcome>
    ensures moved { IfOk result (λ b. MovedTo (take b.n old.new) (block b.way.start b.way.length) b.way.place (take b.n new.new)) }
    ensures stopped { IfErr result (λ o. o.status ≢ Answered) }
{
    match scans::load(rt, call, t.memory_word, to.err, old, memory) {
        Ok(sizes) => {
            let fits = judged(&memory[..sizes.memory.min(65536)]);
            part(rt, call, old, sizes.program, new, fits, t, to)
        }
        Err(_) => Err(results::not_tried()),
    }
}
