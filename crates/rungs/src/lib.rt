// The rung rule, refusal 5: judged in record order, jumps ignored.
#![tactic(auto)]

ghost use Rattle.std.specs.Prelude.{◌+◌, ◌-◌, ◌≤◌, length, false, ◌&&◌, ltb, ◌≡◌};
ghost use Rattle.ec20.specs.Code.{program_in};
ghost use Rattle.ec20.specs.File.{records_from};
ghost use Rattle.ec20.specs.Basics.{pick};
ghost use Rattle.ec20.specs.Rung.{is_load, starts, both_empty, load_ok, action_ok, branch_ok, keeps, after_load, branches_after, after_action, no_flow, rung, after_record, first_broken};
ghost use Rattle.records.specs.Ranges.{Held};
ghost use Rattle.rungs.specs.Within.{Within};

use ec20::{Instr, Refusal, Rung};
use instructions::RowTable;

// LD and LDI, of the contacts.
fn is_load(n: usize) -> bool
    ensures { result ≡ is_load n }
{
    (n == 1) | (n == 2)
}

// An LD starts a rung if flow is absent or the last instruction other than NOP was an action.
fn is_start(s: Rung) -> bool
    ensures { result ≡ starts s }
{
    !s.present | s.action
}

// FOR, NEXT, LBL and END need both stacks empty.
fn both_empty(s: Rung) -> bool
    ensures { result ≡ both_empty s }
{
    (s.blocks == 0) & (s.branches == 0)
}

// A starting LD needs both stacks empty; any other pushes on the block stack, which holds 8.
#[tactic(auto, unfolding(ec20::specs::Rung::load_ok))]
fn load_ok(s: Rung) -> bool
    ensures { result ≡ load_ok s }
{
    if is_start(s) {
        return both_empty(s);
    }
    s.blocks < 8
}

// Actions, MPS, MRD and MPP need flow, and the block stack empty.
#[tactic(auto, unfolding(ec20::specs::Rung::action_ok))]
fn action_ok(s: Rung) -> bool
    ensures { result ≡ action_ok s }
{
    s.present & (s.blocks == 0)
}

// MPS pushes on the branch stack, which holds 8; MRD and MPP need an entry.
#[tactic(auto, unfolding(ec20::specs::Rung::branch_ok))]
fn branch_ok(n: usize, s: Rung) -> bool
    ensures { result ≡ branch_ok n s }
{
    if n == 9 {
        return action_ok(s) & (s.branches < 8);
    }
    action_ok(s) & (0 < s.branches)
}

// LD and LDI by their rule; AND, ANI, OR and ORI need flow.
fn contact_ok(n: usize, s: Rung) -> bool
    ensures { result ≡ pick (is_load n) (load_ok s) s.present }
{
    if is_load(n) {
        return load_ok(s);
    }
    s.present
}

// ANB and ORB need flow, and pop the block stack.
fn join_ok(s: Rung) -> bool
    ensures { result ≡ s.present && ltb 0 s.blocks }
{
    s.present & (0 < s.blocks)
}

// CJ needs flow, and both stacks empty.
fn jump_ok(s: Rung) -> bool
    ensures { result ≡ s.present && both_empty s }
{
    s.present & both_empty(s)
}

// Does the record keep the rule, in the state s?
#[tactic(auto, unfolding(ec20::specs::Rung::keeps))]
fn keeps(i: Instr, s: Rung) -> bool
    ensures { result ≡ keeps i s }
{
    match i {
        Instr::Nop => true,
        Instr::Contact(n, _) => contact_ok(n, s),
        Instr::Compare(..) => load_ok(s),
        Instr::Join(_) => join_ok(s),
        Instr::Branch(n) => branch_ok(n, s),
        Instr::Coil(..) | Instr::Timer(..) | Instr::Word(..) => action_ok(s),
        Instr::Jump(_) => jump_ok(s),
        Instr::For(_) | Instr::Next | Instr::Label(_) | Instr::End => both_empty(s),
    }
}

// A starting LD leaves the block stack as it is; any other pushes the flow on it.
fn blocks_loaded(s: Rung) -> usize
    requires { Within s }
    ensures { result ≡ pick (starts s) s.blocks (s.blocks + 1) }
{
    if is_start(s) {
        return s.blocks;
    }
    s.blocks + 1
}

// After an LD there is flow, and the last instruction is no action.
#[tactic(auto, unfolding(ec20::specs::Rung::after_load))]
fn after_load(s: Rung) -> Rung
    requires { Within s }
    ensures { result ≡ after_load s }
{
    Rung {
        present: true,
        action: false,
        blocks: blocks_loaded(s),
        ..s
    }
}

// After AND, ANI, OR and ORI the last instruction is no action.
fn after_contact(n: usize, s: Rung) -> Rung
    requires { Within s }
    ensures { result ≡ pick (is_load n) (after_load s) (rung s.present false s.blocks s.branches) }
{
    if is_load(n) {
        return after_load(s);
    }
    Rung { action: false, ..s }
}

// ANB and ORB pop the block stack.
fn after_join(s: Rung) -> Rung
    ensures { result ≡ rung s.present false (s.blocks - 1) s.branches }
{
    Rung {
        action: false,
        blocks: s.blocks.saturating_sub(1),
        ..s
    }
}

// MPS pushes on the branch stack, MRD reads the top, MPP pops it.
#[tactic(auto, unfolding(ec20::specs::Rung::branches_after))]
fn branches_after(n: usize, m: usize) -> usize
    requires { m ≤ 8 }
    ensures { result ≡ branches_after n m }
{
    if n == 9 {
        return m + 1;
    }
    if n == 10 {
        return m;
    }
    m.saturating_sub(1)
}

fn after_branch(n: usize, s: Rung) -> Rung
    requires { Within s }
    ensures { result ≡ rung s.present false s.blocks (branches_after n s.branches) }
{
    Rung {
        action: false,
        branches: branches_after(n, s.branches),
        ..s
    }
}

// An action leaves flow and stacks as they are.
fn after_action(s: Rung) -> Rung
    ensures { result ≡ after_action s }
{
    Rung { action: true, ..s }
}

// After 19 to 23 flow is absent.
fn no_flow(s: Rung) -> Rung
    ensures { result ≡ no_flow s }
{
    Rung {
        present: false,
        action: false,
        ..s
    }
}

// The state after a record.
#[tactic(auto, unfolding(ec20::specs::Rung::after_record))]
fn after_record(i: Instr, s: Rung) -> Rung
    requires { Within s }
    ensures { result ≡ after_record i s }
{
    match i {
        Instr::Nop => s,
        Instr::Contact(n, _) => after_contact(n, s),
        Instr::Compare(..) => after_load(s),
        Instr::Join(_) => after_join(s),
        Instr::Branch(n) => after_branch(n, s),
        Instr::Coil(..) | Instr::Timer(..) | Instr::Word(..) => after_action(s),
        Instr::For(_) | Instr::Next | Instr::Jump(_) | Instr::Label(_) | Instr::End => no_flow(s),
    }
}

// The first record that breaks the rule, each decoded by the table. A scan, and the check, start with flow absent and both stacks empty.
pub fn first_broken(rows: &RowTable, f: &[u8], first: usize, count: usize) -> Result<(), Refusal>
    requires held { Held (length f.now) first count }
    ensures { result ≡ first_broken (program_in (records_from f.now first count)) }
{
    let mut s = Rung {
        present: false,
        action: false,
        blocks: 0,
        branches: 0,
    };
    for k in 0..count {
        let i = decode::instr_at(rows, f, first, count, k);
        if !keeps(i, s) {
            return Err(Refusal { number: 5, at: k });
        }
        s = after_record(i, s);
    }
    Ok(())
}
