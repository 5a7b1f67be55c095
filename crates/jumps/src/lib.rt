// Loops and jumps: FOR, NEXT and CJ, and where FOR and CJ go, looked up once for a run.
#![tactic(auto)]

ghost use Rattle.std.specs.Prelude.{ℕ, ◌+◌, ◌<◌, ◌≤◌, ◌^◌, ◌-◌, get_or, length, ◌≡◌};
ghost use Rattle.ec20.specs.Code.{Program, program_in};
ghost use Rattle.ec20.specs.Control.{controls_of, next_of_for, first_label, or_past};
ghost use Rattle.ec20.specs.File.{records_from};
ghost use Rattle.ec20.specs.Memory.{Memory};
ghost use Rattle.ec20.specs.Step.{open_loops, world, for_of, close_of, jump_of};
ghost use Rattle.jumps.specs.Prepared.{goes_to, Prepared};
ghost use Rattle.labels.specs.Places.{Places};
ghost use Rattle.records.specs.Ranges.{Held};

use ec20::{Control, Machine};
use labels::Want;

// FOR 0 goes to the record after its NEXT; else a loop of so many passes is opened. The ninth, which 6 refuses, is passed by.
pub fn open_loop(
    passes: usize,
    goes: &[usize; 2000],
    left: &mut [usize; 8],
    back: &mut [usize; 8],
    s: Machine,
) -> Machine
    requires depth_bound { s.depth ≤ 8 }
    requires pc_bound { s.pc < 2000 }
    requires pc_bound_2 { get_or goes.now s.pc 0 < 2 ^ 63 }
    ensures { (p : Program) (c : Memory) → get_or goes.now s.pc 0 ≡ or_past p.count (next_of_for (controls_of p) p.count s.pc) → world c (open_loops left.new back.new) result ≡ for_of p passes (world c (open_loops left.old back.old) s) }
{
    let pc = s.pc;
    let k = s.depth;
    if passes == 0 {
        let close = goes[pc];
        return flow::go_to(s, close + 1, k);
    }
    if k < 8 {
        left[k] = passes;
        back[k] = pc + 1;
        return flow::go_to(s, pc + 1, k + 1);
    }
    flow::go_to(s, pc + 1, k)
}

// NEXT: the innermost loop has one pass less to go, and begins again at the record after its FOR; with none left it is closed.
pub fn close_loop(left: &mut [usize; 8], back: &[usize; 8], s: Machine) -> Machine
    requires depth_bound { s.depth ≤ 8 }
    requires pc_bound { s.pc < 2 ^ 63 }
    ensures { (c : Memory) → world c (open_loops left.new back.now) result ≡ close_of (world c (open_loops left.old back.now) s) }
{
    let inner = s.depth.saturating_sub(1);
    let passes = left[inner];
    if 1 < passes {
        left[inner] = passes - 1;
        return flow::go_to(s, back[inner], s.depth);
    }
    flow::go_to(s, s.pc + 1, inner)
}

// CJ goes, with flow, to its label.
pub fn jump(goes: &[usize; 2000], s: Machine) -> Machine
    requires { s.pc < 2000 }
    ensures { (p : Program) (l : ℕ) → get_or goes.now s.pc 0 ≡ or_past p.count (first_label (controls_of p) p.count l) → result ≡ jump_of p l s }
{
    let pc = s.pc;
    if flow::is_on(s) {
        return flow::go_to(s, goes[pc], s.depth);
    }
    flow::go_to(s, pc + 1, s.depth)
}

// Where record k goes: a FOR to its NEXT, a CJ to its label, whose place is looked up; past the program if there is none. Any other has 0.
#[tactic(auto, unfolding(crate::specs::Prepared::goes_to, ec20::specs::Control::or_past))]
fn goes_to(f: &[u8], first: usize, count: usize, places: &[usize; 128], k: usize) -> usize
    requires held { Held (length f.now) first count }
    requires places { Places (controls_of (program_in (records_from f.now first count))) count places.now }
    requires k_lt_count { k < count }
    ensures { result ≡ goes_to (controls_of (program_in (records_from f.now first count))) count k (controls_of (program_in (records_from f.now first count)) k) }
{
    match decode::control_at(f, first, count, k) {
        Control::Opens(_) => { labels::find(f, first, count, k + 1, Want::Close).unwrap_or(count) }
        Control::Jumps(l) => labels::place(f, first, count, places, l).unwrap_or(count),
        _ => 0,
    }
}

// The same of each record, the places of the labels being known.
fn looked_up(places: &[usize; 128], f: &[u8], first: usize, count: usize) -> [usize; 2000]
    requires held { Held (length f.now) first count }
    requires places { Places (controls_of (program_in (records_from f.now first count))) count places.now }
    ensures { Prepared (controls_of (program_in (records_from f.now first count))) count result }
{
    let mut goes = [0usize; 2000];
    for k in 0..count {
        goes[k] = goes_to(f, first, count, places, k);
    }
    goes
}

// Looked up once for a run: where each record goes.
pub fn prepare(f: &[u8], first: usize, count: usize) -> [usize; 2000]
    requires { Held (length f.now) first count }
    ensures { Prepared (controls_of (program_in (records_from f.now first count))) count result }
{
    let places = labels::places(f, first, count);
    looked_up(&places, f, first, count)
}
