// The word instructions: with flow the sources are read, the outcome is worked out and stored; without it nothing is done.
#![tactic(auto)]

ghost use Rattle.std.specs.Prelude.{ℕ, ◌+◌, ◌<◌, ◌^◌, eqb, List, ◌≡◌};
ghost use Rattle.ec20.specs.Basics.{pick};
ghost use Rattle.ec20.specs.File.{operand_at};
ghost use Rattle.ec20.specs.Flow.{acted, failed};
ghost use Rattle.ec20.specs.Memory.{memory};
ghost use Rattle.ec20.specs.Step.{Open, world, width_of, word_of};
ghost use Rattle.outcomes.specs.Done.{WordAt, second_of, target_of};

use ec20::Machine;
use instructions::RowTable;

// After a word instruction that ended in error e, 0 for none.
fn settled(e: usize, s: Machine) -> Machine
    requires { s.pc < 2 ^ 63 }
    ensures { result ≡ pick (eqb e 0) (acted s) (failed s e) }
{
    if e != 0 {
        return flow::fail(s, e);
    }
    flow::act(s)
}

// A word instruction: the record of number n at byte i. The table says its width.
pub fn word(
    rows: &RowTable,
    n: usize,
    i: usize,
    f: &[u8],
    x: &[u8],
    y: &mut [u8],
    m: &mut [u8],
    sm: &mut [u8],
    d: &mut [i16],
    tv: &[i16],
    s: Machine,
) -> Machine
    requires word_at { WordAt (width_of n) n i f.now × (s.pc < 2 ^ 63) }
    ensures { (c : List ℕ) (o : Open) → world (memory x.now y.new m.new sm.new c d.new tv.now) o result ≡ word_of n (operand_at f.now (i + 2)) (second_of f.now n i) (target_of f.now n i) (world (memory x.now y.old m.old sm.old c d.old tv.now) o s) }
{
    if !flow::is_on(s) {
        return flow::act(s);
    }
    if rows.width_at(n) == 16 {
        let e = words16::act16(rows, n, i, f, x, y, m, sm, d, tv);
        return settled(e, s);
    }
    let e = words32::act32(rows, n, i, f, x, y, m, sm, d, tv);
    settled(e, s)
}
