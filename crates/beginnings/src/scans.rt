// scan FILE MEMORY ELAPSED [BUDGET]: a scan of a program file over a memory file, which is replaced by the memory after it. Here is what comes ahead
// of the scan and after it.
ghost use Rattle.beginnings.specs.Scans.{budget_named, budget_number};
ghost use Rattle.calls.specs.Numbers.{is_number, number_of};
ghost use Rattle.calls.specs.Text.{word_of};
ghost use Rattle.io.specs.Counts.{IsPrefixLen};
ghost use Rattle.std.specs.Prelude.{◌≡◌, ◌&&◌, ◌↔◌, IsOk, IfOk, IsTrue};

use calls::output::{Descriptor, Outputs};
use calls::results::{Outcome, Status, Tried};
use calls::{files, numbers, text};
use ec20::{DEFAULT_BUDGET, Refusal, Stop};
use std::fmt::Write;
use std::random::RandomSource;
use std::rt::Files;
use telling::report;

#[derive(Clone, Copy)]
pub struct Scan {
    pub elapsed: u32,
    pub budget: u32,
}

// BUDGET is 200,000 where the call names none.
fn budget(call: &[u8], err: Descriptor) -> Tried<u32>
    ensures some { IsOk result ↔ IsTrue (budget_named call.now) }
    ensures value { IfOk result (λ n. n ≡ budget_number call.now) }
{
    if text::count(call) == 5 {
        return numbers::word(call, 4, "BUDGET", err);
    }
    Ok(DEFAULT_BUDGET)
}

// Words 3 and 4, where each is a number.
pub fn asked(call: &[u8], err: Descriptor) -> Tried<Scan>
    ensures some { IsOk result ↔ IsTrue (is_number (word_of call.now 3) && budget_named call.now) }
    ensures elapsed_value { IfOk result (λ s. s.elapsed ≡ number_of (word_of call.now 3)) }
    ensures budget_value { IfOk result (λ s. s.budget ≡ budget_number call.now) }
{
    Ok(Scan {
        elapsed: numbers::word(call, 3, "ELAPSED", err)?,
        budget: budget(call, err)?,
    })
}

// How many bytes the program file and the memory file have.
#[derive(Clone, Copy)]
pub struct Sizes {
    pub program: usize,
    pub memory: usize,
}

// The files that words 1 and `memory_word` name. A longer program file than the buffer holds is refused by 1, as for check.
pub fn load(
    rt: &impl Files,
    call: &[u8],
    memory_word: usize,
    err: Descriptor,
    program: &mut [u8; 65536],
    memory: &mut [u8; 65536],
) -> Tried<Sizes>
    ensures { IfOk result (λ sizes. IsPrefixLen sizes.program program.new) }
{
    let one = files::load(rt, text::word(call, 1), err, program)?;
    let two = files::load(rt, text::word(call, memory_word), err, memory)?;
    Ok(Sizes {
        program: one,
        memory: two,
    })
}

// Where the call named no budget, what can be done about the watchdog.
fn tell_stopped(call: &[u8], stop: Stop, mut err: Descriptor) {
    if let Stop::Watchdog(r) = stop {
        if text::count(call) != 5 {
            let _ = writeln!(
                err,
                "ninhalto: stopped after {} steps, since no BUDGET is named; as many as check tells are enough for any scan",
                r.steps
            );
        }
    }
}

// The answer is told once the memory file is replaced. 1 to 8 are told of the program file, word 1, and 9 of the memory file, word 2, which has so many
// bytes.
pub fn tell(
    rt: &(impl Files + RandomSource),
    call: &[u8],
    f: &[u8],
    scanned: Result<Stop, Refusal>,
    image: &[u8; 16892],
    size: usize,
    to: Outputs,
) -> Tried<Outcome> {
    match scanned {
        Ok(stop) => {
            files::replace(rt, text::word(call, 2), image, to.err)?;
            let outcome = report::scanned(stop, to);
            if outcome.status == Status::Answered {
                tell_stopped(call, stop, to.err);
            }
            Ok(outcome)
        }
        Err(refusal) => Ok(refused(call, f, refusal, size, to)),
    }
}

// 1 to 8 are told of the program file, word 1; 9 and 16 of the memory file, word 2, which has so many bytes.
pub fn refused(call: &[u8], f: &[u8], refusal: Refusal, size: usize, to: Outputs) -> Outcome {
    let word = if refusal.number < 9 { 1 } else { 2 };
    let outcome = report::refused(text::word(call, word), f, refusal, to);
    report::of_before(refusal.number, size, to.err);
    outcome
}
