// A run: at most so many steps over the lent memory, from record 0 on.
#![tactic(auto)]

ghost use Rattle.ec20.specs.Code.{code_of, program_in};
ghost use Rattle.ec20.specs.Control.{control_of};
ghost use Rattle.ec20.specs.File.{records_from};
ghost use Rattle.ec20.specs.Flow.{stopped};
ghost use Rattle.ec20.specs.Memory.{memory};
ghost use Rattle.ec20.specs.Scan.{start_state, answer_of, ran};
ghost use Rattle.records.specs.Ranges.{Held};
ghost use Rattle.runs.specs.Ends.{ends};
ghost use Rattle.runs.specs.Ran.{ran_from, report_of};
ghost use Rattle.step.specs.Ready.{Running};
ghost use Rattle.std.specs.Prelude.{length, ◌≡◌};

use ec20::{Control, Machine, Report, Stop, Units};
use instructions::RowTable;

// A scan starts with flow absent and both stacks empty, at record 0.
fn start() -> Machine
    ensures { result ≡ start_state }
{
    Machine {
        pc: 0,
        flow: 0,
        action: 0,
        blocks: 0,
        branches: 0,
        depth: 0,
        ended: 0,
        error: 0,
        at: 0,
    }
}

// The steps, the record stopped at, and the first error with its record.
fn report(s: Machine, k: usize) -> Report
    ensures { result ≡ report_of k s }
{
    Report {
        steps: k,
        stop: s.pc,
        error: s.error,
        at: s.at,
    }
}

// Ended or watchdog, with the report.
#[tactic(auto, unfolding(ec20::specs::Scan::answer_of))]
fn answer(s: Machine, k: usize) -> Stop
    ensures { Ok result ≡ answer_of k s }
{
    let r = report(s, k);
    if s.ended == 0 {
        return Stop::Watchdog(r);
    }
    Stop::Ended(r)
}

// END is one step more, which is counted in k, and stays the record stopped at.
#[tactic(auto, unfolding(ec20::specs::Scan::answer_of))]
fn ended(s: Machine, k: usize) -> Stop
    ensures { Ok result ≡ answer_of k (stopped s) }
{
    Stop::Ended(report(s, k))
}

// Whether the record due is END, as it is past the last record.
#[tactic(auto, unfolding(crate::specs::Ends::ends))]
fn at_end(f: &[u8], first: usize, count: usize, k: usize) -> bool
    requires { Held (length f.now) first count }
    ensures { result ≡ ends (control_of (code_of (records_from f.now first count) k)) }
{
    matches!(decode::control_at(f, first, count, k), Control::Ends)
}

// At most `budget` steps, from record 0 on. END is looked for ahead of each step and never given to one, so that no step has to be asked
// whether it was the last. The steps that may still be made are counted down: one number in the loop, where steps and budget would be two.
pub fn run(
    rows: &RowTable,
    f: &[u8],
    first: usize,
    count: usize,
    goes: &[usize; 2000],
    u: Units,
    budget: usize,
    x: &[u8],
    y: &mut [u8],
    m: &mut [u8],
    sm: &mut [u8],
    t: &mut [u8],
    d: &mut [i16],
    tv: &mut [i16],
) -> Stop
    requires { Running f.now first count goes.now u }
    ensures { ran (Ok result) (memory x.now y.new m.new sm.new t.new d.new tv.new) ≡ ran_from (program_in (records_from f.now first count)) u budget (memory x.now y.old m.old sm.old t.old d.old tv.old) }
{
    let mut left = [0usize; 8];
    let mut back = [0usize; 8];
    let mut s = start();
    let mut more = budget;
    while 0 < more {
        let due = at_end(f, first, count, s.pc);
        if due {
            return ended(s, budget - more + 1);
        }
        s = step::step(
            rows, f, first, count, goes, u, x, y, m, sm, t, d, tv, &mut left, &mut back, s,
        );
        more -= 1;
    }
    answer(s, budget)
}
