// The word instructions of 16 bits, 32 to 40, with flow. Each arm stores what its outcome has, so that the compiler makes no struct of the outcome.
#![tactic(auto)]

ghost use Rattle.std.specs.Prelude.{ℕ, ◌+◌, List, ◌≡◌};
ghost use Rattle.ec20.specs.File.{operand_at};
ghost use Rattle.ec20.specs.Memory.{memory};
ghost use Rattle.outcomes.specs.Done.{Done, WordAt, second_of, target_of};

use instructions::RowTable;

// The record of number n at byte i: the error, 0 if there is none. The table says that it is a word instruction of this width, and how many
// words on the remainder stands; the arm says which operation it is.
pub fn act16(
    rows: &RowTable,
    n: usize,
    i: usize,
    f: &[u8],
    x: &[u8],
    y: &mut [u8],
    m: &mut [u8],
    sm: &mut [u8],
    d: &mut [i16],
    tv: &[i16],
) -> usize
    requires word_at { WordAt 16 n i f.now }
    ensures { (c : List ℕ) → Done n (operand_at f.now (i + 2)) (second_of f.now n i) (target_of f.now n i) (memory x.now y.old m.old sm.old c d.old tv.now) result (memory x.now y.new m.new sm.new c d.new tv.now) }
{
    let u = operands::load(16, records::operand_at(f, i + 2), x, y, m, d, tv);
    match n {
        33 => {
            let v = operands::load(16, records::operand_at(f, i + 8), x, y, m, d, tv);
            let r = arith::add(u, v, 32768);
            operands::store(16, records::operand_at(f, i + 14), r.value, y, m, d);
            operands::flags(r, sm);
            0
        }
        34 => {
            let v = operands::load(16, records::operand_at(f, i + 8), x, y, m, d, tv);
            let r = arith::sub(u, v, 32768);
            operands::store(16, records::operand_at(f, i + 14), r.value, y, m, d);
            operands::flags(r, sm);
            0
        }
        35 => quotients::divided::<16, 32768>(rows, n, i, u, f, x, y, m, d, tv),
        36 => {
            let r = arith::sqt(u);
            if r.error != 0 {
                return r.error;
            }
            operands::store(16, records::operand_at(f, i + 8), r.value, y, m, d);
            operands::flags(r, sm);
            0
        }
        37 => {
            let r = arith::inc(u, 32768);
            operands::store(16, records::operand_at(f, i + 2), r.value, y, m, d);
            0
        }
        38 => {
            let r = arith::dec(u, 32768);
            operands::store(16, records::operand_at(f, i + 2), r.value, y, m, d);
            0
        }
        39 => {
            let r = arith::vabs(u, 32768);
            if r.error != 0 {
                return r.error;
            }
            operands::store(16, records::operand_at(f, i + 8), r.value, y, m, d);
            0
        }
        40 => {
            let r = arith::neg(u, 32768);
            if r.error != 0 {
                return r.error;
            }
            operands::store(16, records::operand_at(f, i + 8), r.value, y, m, d);
            0
        }
        _ => {
            let r = arith::stored(u);
            operands::store(16, records::operand_at(f, i + 8), r.value, y, m, d);
            0
        }
    }
}
