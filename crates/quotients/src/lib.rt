// DIV and DDIV, 35 and 52, with flow: "quotient, then remainder". The width is a const parameter, so that each width has an instance of its own,
// with one caller, and is inlined: for a call of one function that was handed the width every slice was written to the stack at each step.
#![tactic(auto)]

ghost use Rattle.std.specs.Prelude.{ℕ, ◌+◌, ◌<◌, List, ◌≡◌};
ghost use Rattle.ec20.specs.File.{operand_at};
ghost use Rattle.ec20.specs.Memory.{memory, load_of};
ghost use Rattle.ec20.specs.Numbers.{half};
ghost use Rattle.outcomes.specs.Done.{Done, WordAt, Divides, second_of, target_of};
ghost use Rattle.std.specs.Int.Signed.{mag};

use instructions::RowTable;

// The record of number n at byte i, a division of W bits, whose first source reads u: the error, 0 if there is none. H is one more than the
// largest number of W bits. Both sources are read before the quotient is stored; the table says how many words on the remainder stands.
pub fn divided<const W: usize, const H: u64>(
    rows: &RowTable,
    n: usize,
    i: usize,
    u: i64,
    f: &[u8],
    x: &[u8],
    y: &mut [u8],
    m: &mut [u8],
    d: &mut [i16],
    tv: &[i16],
) -> usize
    requires word_at { WordAt W n i f.now }
    requires divides { Divides n W H }
    requires by_index { ((s t : List ℕ) → u ≡ load_of W (operand_at f.now (i + 2)) (memory x.now y.old m.old s t d.old tv.now)) × (mag u < half W) }
    ensures { (s t : List ℕ) → Done n (operand_at f.now (i + 2)) (second_of f.now n i) (target_of f.now n i) (memory x.now y.old m.old s t d.old tv.now) result (memory x.now y.new m.new s t d.new tv.now) }
{
    let v = operands::load(W, records::operand_at(f, i + 8), x, y, m, d, tv);
    let r = arith::div(u, v, H);
    if r.error != 0 {
        return r.error;
    }
    let t = records::operand_at(f, i + 14);
    operands::store(W, t, r.value, y, m, d);
    let words = records::wide(rows.third_at(n)) / 2;
    operands::second(W, t, words, r, y, m, d);
    0
}
