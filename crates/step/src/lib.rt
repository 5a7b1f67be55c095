// One step: the instructions over memory and state.
#![tactic(auto)]

ghost use Rattle.std.specs.Prelude.{ℕ, ◌+◌, ◌<◌, ◌≤◌, ◌^◌, ℤ, List, ◌≡◌};
ghost use Rattle.ec20.specs.Flow.{is_on, acted, compare_of, coil_of};
ghost use Rattle.ec20.specs.Memory.{memory, load_of};
ghost use Rattle.ec20.specs.Code.{program_in};
ghost use Rattle.ec20.specs.File.{records_from};
ghost use Rattle.ec20.specs.Step.{Open, open_loops, world, step_of};
ghost use Rattle.step.specs.Ready.{Running, Due, Left};
ghost use Rattle.ec20.specs.Timers.{Few, timer_of};

use ec20::{Form, Machine, Operand, Units};
use instructions::RowTable;

// LD=, LD>, LD<: the first source against the second, of w bits each.
fn compare<'a>(
    w: usize,
    n: usize,
    a: Operand,
    b: Operand,
    x: &'a [u8],
    y: &'a [u8],
    m: &'a [u8],
    d: &[i16],
    tv: &[i16],
    s: Machine,
) -> Machine
    requires { (s.pc < 2 ^ 63) × (a.value < 2 ^ 32) × (b.value < 2 ^ 32) }
    ensures { (sm t : List ℕ) → result ≡ compare_of n (load_of w a (memory x.now y.now m.now sm t d.now tv.now)) (load_of w b (memory x.now y.now m.now sm t d.now tv.now)) s }
{
    let u = operands::compared(w, a, x, y, m, d, tv);
    let v = operands::compared(w, b, x, y, m, d, tv);
    flow::compare(n, u, v, s)
}

// OUT, SET, RST.
fn coil(n: usize, o: Operand, y: &mut [u8], m: &mut [u8], s: Machine) -> Machine
    requires { s.pc < 2 ^ 63 }
    ensures { (x sm t : List ℕ) (d tv : List ℤ) (u : Open) → world (memory x y.new m.new sm t d tv) u result ≡ world (coil_of n o (is_on s) (memory x y.old m.old sm t d tv)) u (acted s) }
{
    operands::coil(n, o, flow::is_on(s), y, m);
    flow::act(s)
}

// TON.
fn timer(u: Units, i: usize, constant: usize, t: &mut [u8], tv: &mut [i16], s: Machine) -> Machine
    requires { (s.pc < 2 ^ 63) × Few u }
    ensures { (x y m sm : List ℕ) (d : List ℤ) (o : Open) → world (memory x y m sm t.new d tv.new) o result ≡ world (timer_of u i constant (is_on s) (memory x y m sm t.old d tv.old)) o (acted s) }
{
    operands::timer(u, i, constant, flow::is_on(s), t, tv);
    flow::act(s)
}

// What the match of `exec` leaves: word instructions, comparisons, and numbers of no instruction. The table says which it is, and its width.
fn rest(
    rows: &RowTable,
    n: usize,
    i: usize,
    f: &[u8],
    first: usize,
    count: usize,
    u: Units,
    x: &[u8],
    y: &mut [u8],
    m: &mut [u8],
    sm: &mut [u8],
    d: &mut [i16],
    tv: &[i16],
    s: Machine,
) -> Machine
    requires due { Due f.now first count n i s }
    requires left { Left n }
    ensures { (t : List ℕ) (o : Open) → world (memory x.now y.new m.new sm.new t d.new tv.now) o result ≡ step_of (program_in (records_from f.now first count)) u (world (memory x.now y.old m.old sm.old t d.old tv.now) o s) }
{
    match rows.form_at(n) {
        Form::Three | Form::Two | Form::One => {
            actions::word(rows, n, i, f, x, y, m, sm, d, tv, s)
        }
        Form::Compare => {
            let w = records::wide(rows.width_at(n));
            let a = records::operand_at(f, i + 2);
            let b = records::operand_at(f, i + 8);
            compare(w, n, a, b, x, y, m, d, tv, s)
        }
        _ => flow::go_on(s),
    }
}

// The record due, at byte i of the file, of number n. Each number has an arm of its own, so that the compiler makes one jump of the match and
// knows the number in each arm.
fn exec(
    rows: &RowTable,
    n: usize,
    i: usize,
    f: &[u8],
    first: usize,
    count: usize,
    goes: &[usize; 2000],
    u: Units,
    x: &[u8],
    y: &mut [u8],
    m: &mut [u8],
    sm: &mut [u8],
    t: &mut [u8],
    d: &mut [i16],
    tv: &mut [i16],
    left: &mut [usize; 8],
    back: &mut [usize; 8],
    s: Machine,
) -> Machine
    requires running { Running f.now first count goes.now u }
    requires due { Due f.now first count n i s }
    ensures { world (memory x.now y.new m.new sm.new t.new d.new tv.new) (open_loops left.new back.new) result ≡ step_of (program_in (records_from f.now first count)) u (world (memory x.now y.old m.old sm.old t.old d.old tv.old) (open_loops left.old back.old) s) }
{
    match n {
        0 => flow::go_on(s),
        1 => {
            let b = operands::load_bit(records::operand_at(f, i + 2), x, y, m, sm, t);
            flow::contact(1, b, s)
        }
        2 => {
            let b = operands::load_bit(records::operand_at(f, i + 2), x, y, m, sm, t);
            flow::contact(2, b, s)
        }
        3 => {
            let b = operands::load_bit(records::operand_at(f, i + 2), x, y, m, sm, t);
            flow::contact(3, b, s)
        }
        4 => {
            let b = operands::load_bit(records::operand_at(f, i + 2), x, y, m, sm, t);
            flow::contact(4, b, s)
        }
        5 => {
            let b = operands::load_bit(records::operand_at(f, i + 2), x, y, m, sm, t);
            flow::contact(5, b, s)
        }
        6 => {
            let b = operands::load_bit(records::operand_at(f, i + 2), x, y, m, sm, t);
            flow::contact(6, b, s)
        }
        7 => flow::join(7, s),
        8 => flow::join(8, s),
        9 => flow::branch(9, s),
        10 => flow::branch(10, s),
        11 => flow::branch(11, s),
        12 => coil(12, records::operand_at(f, i + 2), y, m, s),
        13 => coil(13, records::operand_at(f, i + 2), y, m, s),
        14 => coil(14, records::operand_at(f, i + 2), y, m, s),
        18 => timer(
            u,
            records::u32_at(f, i + 4),
            records::u32_at(f, i + 10),
            t,
            tv,
            s,
        ),
        19 => jumps::open_loop(records::u32_at(f, i + 4), goes, left, back, s),
        20 => jumps::close_loop(left, back, s),
        21 => jumps::jump(goes, s),
        22 => flow::go_to(s, s.pc + 1, s.depth),
        23 => flow::stop(s),
        _ => rest(rows, n, i, f, first, count, u, x, y, m, sm, d, tv, s),
    }
}

// One step: the record due is executed; past the last record there is END.
pub fn step(
    rows: &RowTable,
    f: &[u8],
    first: usize,
    count: usize,
    goes: &[usize; 2000],
    u: Units,
    x: &[u8],
    y: &mut [u8],
    m: &mut [u8],
    sm: &mut [u8],
    t: &mut [u8],
    d: &mut [i16],
    tv: &mut [i16],
    left: &mut [usize; 8],
    back: &mut [usize; 8],
    s: Machine,
) -> Machine
    requires running { Running f.now first count goes.now u }
    requires depth_bound { (s.depth ≤ 8) × (s.pc < 2 ^ 63) }
    ensures { world (memory x.now y.new m.new sm.new t.new d.new tv.new) (open_loops left.new back.new) result ≡ step_of (program_in (records_from f.now first count)) u (world (memory x.now y.old m.old sm.old t.old d.old tv.old) (open_loops left.old back.old) s) }
{
    if count <= s.pc {
        return flow::stop(s);
    }
    let i = first + 20 * s.pc;
    let n = records::wide(f[i]);
    exec(
        rows, n, i, f, first, count, goes, u, x, y, m, sm, t, d, tv, left, back, s,
    )
}
