// Power flow: what an instruction does to the running machine's state, memory apart. Flow is 0 absent, 1 off, 2 on; a stack of eight is a
// byte with its top in the lowest bit.
#![tactic(auto)]

ghost use Rattle.std.specs.Prelude.{◌+◌, ◌<◌, ◌^◌, eqb, not, ◌||◌, ◌≡◌};
ghost use Rattle.ec20.specs.Basics.{pick};
ghost use Rattle.ec20.specs.Flow.{is_on, flow_of, push, top, onward, flowed, acted, failed, gone, stopped, starts_now, loaded, contact_of, compare_of, join_of, branch_of};

use ec20::Machine;

// With flow means on.
pub fn is_on(s: Machine) -> bool
    ensures { result ≡ is_on s }
{
    s.flow == 2
}

// Present flow, on or off.
fn flow_of(b: bool) -> usize
    ensures { result ≡ flow_of b }
{
    if b { 2 } else { 1 }
}

// A stack with one more entry, and its top.
fn pushed(n: usize, b: bool) -> usize
    ensures { result ≡ push n b }
{
    n % 128 * 2 + usize::from(b)
}

fn top_of(n: usize) -> bool
    ensures { result ≡ top n }
{
    n % 2 == 1
}

// The next record is due.
pub fn go_on(s: Machine) -> Machine
    requires { s.pc < 2 ^ 63 }
    ensures { result ≡ onward s }
{
    Machine { pc: s.pc + 1, ..s }
}

// After an instruction that makes flow: the flow, the block stack, the branch stack.
fn make_flow(s: Machine, f: usize, n: usize, m: usize) -> Machine
    requires { s.pc < 2 ^ 63 }
    ensures { result ≡ flowed s f n m }
{
    Machine {
        pc: s.pc + 1,
        flow: f,
        action: 0,
        blocks: n,
        branches: m,
        ..s
    }
}

// After an action.
pub fn act(s: Machine) -> Machine
    requires { s.pc < 2 ^ 63 }
    ensures { result ≡ acted s }
{
    Machine {
        pc: s.pc + 1,
        action: 1,
        ..s
    }
}

// After an action that ended in error: the first error is kept, with its record.
pub fn fail(s: Machine, e: usize) -> Machine
    requires { s.pc < 2 ^ 63 }
    ensures { result ≡ failed s e }
{
    if s.error != 0 {
        return act(s);
    }
    Machine {
        pc: s.pc + 1,
        action: 1,
        error: e,
        at: s.pc,
        ..s
    }
}

// After FOR, NEXT, CJ and LBL flow is absent: the record due, the loops open.
pub fn go_to(s: Machine, k: usize, d: usize) -> Machine
    ensures { result ≡ gone s k d }
{
    Machine {
        pc: k,
        flow: 0,
        action: 0,
        depth: d,
        ..s
    }
}

// END: it stays the record stopped at.
pub fn stop(s: Machine) -> Machine
    ensures { result ≡ stopped s }
{
    Machine {
        flow: 0,
        action: 0,
        ended: 1,
        ..s
    }
}

// A load starts a rung, or pushes the flow on the block stack. What would be pushed is made ahead, so that the compiler chooses and does not jump.
fn load(s: Machine, b: bool) -> Machine
    requires { s.pc < 2 ^ 63 }
    ensures { result ≡ loaded s b }
{
    let more = pushed(s.blocks, is_on(s));
    let n = if (s.flow == 0) | (s.action == 1) {
        s.blocks
    } else {
        more
    };
    make_flow(s, flow_of(b), n, s.branches)
}

// LDI, ANI and ORI take the opposite of the bit.
fn turned(n: usize, bit: bool) -> bool
    ensures { result ≡ pick (eqb n 2 || eqb n 4 || eqb n 6) (not bit) bit }
{
    bit != matches!(n, 2 | 4 | 6)
}

// LD, LDI, AND, ANI, OR, ORI of a bit.
pub fn contact(n: usize, bit: bool, s: Machine) -> Machine
    requires { s.pc < 2 ^ 63 }
    ensures { result ≡ contact_of n bit s }
{
    let b = turned(n, bit);
    if (n == 1) | (n == 2) {
        return load(s, b);
    }
    if (n == 3) | (n == 4) {
        return make_flow(s, flow_of(is_on(s) & b), s.blocks, s.branches);
    }
    make_flow(s, flow_of(is_on(s) | b), s.blocks, s.branches)
}

// LD=, LD>, LD< of two numbers.
pub fn compare(n: usize, a: i64, b: i64, s: Machine) -> Machine
    requires { s.pc < 2 ^ 63 }
    ensures { result ≡ compare_of n a b s }
{
    let less = ints::less(a, b);
    let more = ints::less(b, a);
    if n == 15 {
        return load(s, !less & !more);
    }
    if n == 16 {
        return load(s, more);
    }
    load(s, less)
}

// ANB and ORB pop the block stack and combine.
pub fn join(n: usize, s: Machine) -> Machine
    requires { s.pc < 2 ^ 63 }
    ensures { result ≡ join_of n s }
{
    let t = top_of(s.blocks);
    let on = is_on(s);
    if n == 7 {
        return make_flow(s, flow_of(t & on), s.blocks / 2, s.branches);
    }
    make_flow(s, flow_of(t | on), s.blocks / 2, s.branches)
}

// MPS pushes a copy of the flow on the branch stack, MRD reads the top, MPP pops it.
pub fn branch(n: usize, s: Machine) -> Machine
    requires { s.pc < 2 ^ 63 }
    ensures { result ≡ branch_of n s }
{
    let t = top_of(s.branches);
    if n == 9 {
        return make_flow(s, s.flow, s.blocks, pushed(s.branches, is_on(s)));
    }
    if n == 10 {
        return make_flow(s, flow_of(t), s.blocks, s.branches);
    }
    make_flow(s, flow_of(t), s.blocks, s.branches / 2)
}
