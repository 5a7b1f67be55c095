// Operands over the lent memory: what each reads and writes of it. A program touches memory only here: bits of X, Y, M, SM and T contacts,
// D words and T values. Each contract is one equation over the whole memory, whatever the tables are that a function does not hold.
// A D word or pair behind which the table goes on is read and stored where it is asked for, and a constant is read there. What is rare (groups,
// T values, none, and D at the table's end) stands in `other` and `store_other`. A group is stored by a call (`bits::scatter`), and what is rare is
// read by one wherever it would make the step too long: docs/BENCHMARKS.md, 'Where the step stands', has what the compiler inlines.
#![tactic(auto)]

ghost use Rattle.std.specs.Prelude.{◌≡◌, false, List, ℕ, ◌+◌, ◌/◌, ◌<◌, ◌≤◌, ◌^◌, eqb, ℤ};
ghost use Rattle.std.specs.Int.Signed.{mag};
ghost use Rattle.ec20.specs.Basics.{pick, one_if};
ghost use Rattle.ec20.specs.Numbers.{bits_in, half};
ghost use Rattle.ec20.specs.Memory.{memory, load_bit, store_bit, constant_at, load_of, store_of, following};
ghost use Rattle.ec20.specs.Words.{with_flags};
ghost use Rattle.ec20.specs.Flow.{coil_of};
ghost use Rattle.ec20.specs.Timers.{units_of, Few, old_of, counted_of, contact_is, limit_at, timer_of};

use ec20::{Operand, Outcome, Units};

// "bit: X, Y, M, SM, T": whether the bit that the operand names is on; T contacts for all kinds but X, Y, M and SM. By tests and not by a `match`,
// which becomes a jump through a table, the second one of the step.
pub fn load_bit<'a>(
    o: Operand,
    x: &'a [u8],
    y: &'a [u8],
    m: &'a [u8],
    sm: &'a [u8],
    t: &'a [u8],
) -> bool
    ensures { (d tv : List ℤ) → result ≡ load_bit o (memory x.now y.now m.now sm.now t.now d tv) }
{
    let v = o.value;
    let k = o.kind;
    if k < 4 {
        if k == 2 {
            return bits::bit_at(x, v) == 1;
        }
        if k == 3 {
            return bits::bit_at(y, v) == 1;
        }
        return bits::bit_at(t, v) == 1;
    }
    if k == 4 {
        return bits::bit_at(m, v) == 1;
    }
    if k == 5 {
        return bits::bit_at(sm, v) == 1;
    }
    bits::bit_at(t, v) == 1
}

// "constant (two's complement)": the value as a number of w bits.
fn constant(w: usize, o: Operand) -> i64
    ensures { (result ≡ constant_at w o) × (mag result < half w) }
{
    let v = o.value as u64;
    match w {
        16 => ints::of_bits(v % 65536, 32768),
        _ => ints::of_bits(v % 4294967296, 2147483648),
    }
}

// A source of w bits that is no constant, where it is rare: "a group of 4n bits of X, Y or M", "T (its value)", "Kinds: 0 none", which reads 0,
// and a D word or pair at the table's end or past it. The operand comes as three numbers: a struct that is lent would be written to the stack
// at each load.
fn other(
    w: usize,
    k: usize,
    g: usize,
    v: usize,
    x: &[u8],
    y: &[u8],
    m: &[u8],
    d: &[i16],
    tv: &[i16],
) -> i64
    requires { (v < 2 ^ 32) × (eqb k 1 ≡ false) }
    ensures { ((sm t : List ℕ) → result ≡ load_of w (record { kind = k; group = g; value = v }) (memory x.now y.now m.now sm t d.now tv.now)) × (mag result < half w) }
{
    match k {
        7 => words::number_at(d, v, w),
        6 => words::word_at(tv, v),
        2 => bits::group_at(x, v, g, w),
        3 => bits::group_at(y, v, g, w),
        _ => if (k == 0) & (g == 0) {
            0
        } else {
            bits::group_at(m, v, g, w)
        },
    }
}

// A source of w bits: "a constant .., a group .., T (its value) or D", at 32 bits "a D pair"; none, where there is no second source, reads 0.
pub fn load(w: usize, o: Operand, x: &[u8], y: &[u8], m: &[u8], d: &[i16], tv: &[i16]) -> i64
    requires { o.value < 2 ^ 32 }
    ensures { ((sm t : List ℕ) → result ≡ load_of w o (memory x.now y.now m.now sm t d.now tv.now)) × (mag result < half w) }
{
    if o.kind == 7 {
        if o.value + 1 < d.len() {
            return words::number_in(d, o.value, w);
        }
    }
    if o.kind == 1 {
        return constant(w, o);
    }
    // Slices made here: those of the parameters would be written to the stack at each load.
    let nx = x.len();
    let ny = y.len();
    let nm = m.len();
    let nd = d.len();
    let nt = tv.len();
    other(
        w,
        o.kind,
        o.group,
        o.value,
        &x[..nx],
        &y[..ny],
        &m[..nm],
        &d[..nd],
        &tv[..nt],
    )
}

// A source of a comparison: "two sources, 16-bit", by the width that the table has. With one function for this and for `load` neither would be
// inlined.
pub fn compared(w: usize, o: Operand, x: &[u8], y: &[u8], m: &[u8], d: &[i16], tv: &[i16]) -> i64
    requires { o.value < 2 ^ 32 }
    ensures { ((sm t : List ℕ) → result ≡ load_of w o (memory x.now y.now m.now sm t d.now tv.now)) × (mag result < half w) }
{
    let v = o.value;
    if o.kind == 7 {
        if v + 1 < d.len() {
            return words::number_in(d, v, w);
        }
    }
    if o.kind == 1 {
        return constant(w, o);
    }
    // Slices made here, as in `load`.
    let of_x = x.len();
    let of_y = y.len();
    let of_m = m.len();
    let of_d = d.len();
    let of_t = tv.len();
    other(
        w,
        o.kind,
        o.group,
        v,
        &x[..of_x],
        &y[..of_y],
        &m[..of_m],
        &d[..of_d],
        &tv[..of_t],
    )
}

// A target of w bits, where it is rare: "groups of Y or M", and a D word or pair at the table's end or past it.
fn store_other(
    w: usize,
    k: usize,
    g: usize,
    v: usize,
    z: i64,
    y: &mut [u8],
    m: &mut [u8],
    d: &mut [i16],
)
    requires { (v < 2 ^ 33) × (mag z < half w) }
    ensures { (x sm t : List ℕ) (tv : List ℤ) → memory x y.new m.new sm t d.new tv ≡ store_of w (record { kind = k; group = g; value = v }) z (memory x y.old m.old sm t d.old tv) }
{
    match k {
        7 => words::put_number(d, v, w, z),
        3 => bits::put_group(y, v, g, w, z),
        4 => bits::put_group(m, v, g, w, z),
        _ => {}
    }
}

// A target of w bits: "groups of Y or M .., or D".
pub fn store(w: usize, o: Operand, z: i64, y: &mut [u8], m: &mut [u8], d: &mut [i16])
    requires { (o.value < 2 ^ 33) × (mag z < half w) }
    ensures { (x sm t : List ℕ) (tv : List ℤ) → memory x y.new m.new sm t d.new tv ≡ store_of w o z (memory x y.old m.old sm t d.old tv) }
{
    if (o.kind == 7) & (o.value + 1 < d.len()) {
        words::put_in(d, o.value, w, z);
        return;
    }
    store_other(w, o.kind, o.group, o.value, z, y, m, d);
}

// The target so many words on.
fn next(words: usize, o: Operand) -> Operand
    requires { (o.value < 2 ^ 32) × (words ≤ 2) }
    ensures { result ≡ record { kind = o.kind; group = o.group; value = o.value + words } }
{
    Operand {
        value: o.value + words,
        ..o
    }
}

// "DIV: quotient, then remainder, two words; DDIV: four words": the second of two values, in the target that follows, which stands so many
// words on; nothing where there is one value only.
pub fn second(
    w: usize,
    o: Operand,
    words: usize,
    r: Outcome,
    y: &mut [u8],
    m: &mut [u8],
    d: &mut [i16],
)
    requires { (o.value < 2 ^ 32) × (mag r.second < half w) × (words ≡ bits_in w / 16) }
    ensures { (x sm t : List ℕ) (tv : List ℤ) → memory x y.new m.new sm t d.new tv ≡ pick (eqb r.two 1) (store_of w (following w o) r.second (memory x y.old m.old sm t d.old tv)) (memory x y.old m.old sm t d.old tv) }
{
    if r.two != 1 {
        return;
    }
    let n = next(words, o);
    if (n.kind == 7) & (n.value + 1 < d.len()) {
        words::put_in(d, n.value, w, r.second);
        return;
    }
    store_other(w, n.kind, n.group, n.value, r.second, y, m, d);
}

// "SM180 on exactly if the exact result is 0, SM181 if it is above the width's range, SM182 if below"; nothing where flags stay.
pub fn flags(r: Outcome, sm: &mut [u8])
    requires { (r.zero < 2) × (r.above < 2) × (r.below < 2) }
    ensures { sm.new ≡ pick (eqb r.flags 1) (with_flags r sm.old) sm.old }
{
    if r.flags == 1 {
        bits::put_bit(sm, 180, r.zero);
        bits::put_bit(sm, 181, r.above);
        bits::put_bit(sm, 182, r.below);
    }
}

// "bit: Y, M": the bit that the operand names made b.
fn store_bit(o: Operand, b: usize, y: &mut [u8], m: &mut [u8])
    requires { b < 2 }
    ensures { (x sm t : List ℕ) (d tv : List ℤ) → memory x y.new m.new sm t d tv ≡ store_bit o b (memory x y.old m.old sm t d tv) }
{
    match o.kind {
        3 => bits::put_bit(y, o.value, b),
        4 => bits::put_bit(m, o.value, b),
        _ => {}
    }
}

// What OUT (12), SET (13) and RST write.
fn written(n: usize, on: bool) -> usize
    ensures { (result ≡ pick (eqb n 12) (one_if on) (one_if (eqb n 13))) × (result < 2) }
{
    if n == 12 {
        usize::from(on)
    } else {
        usize::from(n == 13)
    }
}

// "OUT writes the flow; SET and RST act only with flow."
pub fn coil(n: usize, o: Operand, on: bool, y: &mut [u8], m: &mut [u8])
    ensures { (x sm t : List ℕ) (d tv : List ℤ) → memory x y.new m.new sm t d tv ≡ coil_of n o on (memory x y.old m.old sm t d tv) }
{
    if (n == 12) | on {
        store_bit(o, written(n, on), y, m);
    }
}

// "T0 to T209 are 100 ms, T210 to T251 are 10 ms, T252 to T255 are 1 ms": how many units timer i counts of those that a scan gives.
fn units(u: Units, i: usize) -> usize
    requires { Few u }
    ensures { (result ≡ units_of u i) × (result ≤ 32767) }
{
    if i < 210 {
        return u.hundreds;
    }
    if i < 252 {
        return u.tens;
    }
    u.ones
}

// "old value, or 0 if negative".
fn old(z: i64) -> usize
    requires { mag z < 2 ^ 15 }
    ensures { (result ≡ old_of z) × (result < 2 ^ 15) }
{
    if ints::less(z, 0) {
        0
    } else {
        ints::plain(z) as usize
    }
}

// "value becomes the smaller of the constant and (old value, or 0 if negative, plus elapsed units)"; "Without flow: value 0".
fn counted(on: bool, limit: usize, units: usize, z: i64) -> usize
    requires { (units ≤ 32767) × (mag z < 2 ^ 15) }
    ensures { (result ≡ counted_of on limit units z) × (result ≤ limit) }
{
    if !on {
        return 0;
    }
    limit.min(old(z) + units)
}

// "contact on exactly if it equals the constant. Without flow: .. contact off."
fn contact(on: bool, limit: usize, n: usize) -> usize
    ensures { (result ≡ contact_is on limit n) × (result < 2) }
{
    if on { usize::from(n == limit) } else { 0 }
}

// "TON": timer i with this constant, with flow or not, in a scan that gives these units.
pub fn timer(u: Units, i: usize, constant: usize, on: bool, t: &mut [u8], tv: &mut [i16])
    requires { Few u }
    ensures { (x y m sm : List ℕ) (d : List ℤ) → memory x y m sm t.new d tv.new ≡ timer_of u i constant on (memory x y m sm t.old d tv.old) }
{
    let limit = constant % 32768;
    let n = counted(on, limit, units(u, i), words::word_at(tv, i));
    bits::put_bit(t, i, contact(on, limit, n));
    words::put_word(tv, i, ints::whole(n as u64));
}
