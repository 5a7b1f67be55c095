// The word instructions as functions of values, at 16 and 32 bits at once: h is one more than the largest number of the width. Each
// result is what ec20's specs/Words.antt defines. What is stored of an exact result are its low bits (`ints::wrapped`): callers write h as a
// literal, so that no division is left.
#![tactic(auto)]

ghost use Rattle.std.specs.Prelude.{◌≡◌, ◌+◌, ◌<◌, ◌≤◌, ◌^◌, pos, ◌+ℤ◌, ◌-ℤ◌, ◌*ℤ◌};
ghost use Rattle.std.specs.Int.Signed.{mag};
ghost use Rattle.ec20.specs.Numbers.{wrap, root_of};
ghost use Rattle.ec20.specs.Words.{value, values, failure, flagged, sum_of, div_of, rooted, sqt_of, vabs_of, neg_of};

use ec20::Outcome;

// No error, no value, no flags.
const NONE: Outcome = Outcome {
    error: 0,
    value: 0,
    second: 0,
    two: 0,
    flags: 0,
    zero: 0,
    above: 0,
    below: 0,
};

// One value and no flags.
pub fn stored(z: i64) -> Outcome
    ensures { result ≡ value z }
{
    Outcome { value: z, ..NONE }
}

// Two values, the second for the place after the target, and no flags.
fn both(z: i64, y: i64) -> Outcome
    ensures { result ≡ values z y }
{
    Outcome {
        value: z,
        second: y,
        two: 1,
        ..NONE
    }
}

// Not executed: the error e.
fn refused(e: usize) -> Outcome
    ensures { result ≡ failure e }
{
    Outcome { error: e, ..NONE }
}

// One value with its three flags.
fn judged(z: i64, zero: bool, above: bool, below: bool) -> Outcome
    ensures { result ≡ flagged z zero above below }
{
    Outcome {
        value: z,
        flags: 1,
        zero: usize::from(zero),
        above: usize::from(above),
        below: usize::from(below),
        ..NONE
    }
}

// What is stored of the exact sum or difference z, and the flags of z itself.
fn sum(z: i64, h: u64) -> Outcome
    requires { (0 < h) × (h ≤ 2 ^ 31) × (mag z < h + h) }
    ensures { result ≡ sum_of h z }
{
    let value = ints::wrapped(z, h);
    let zero = ints::is_zero(z);
    let above = ints::is_above(z, h);
    let below = ints::is_below(z, h);
    judged(value, zero, above, below)
}

// ADD and DADD.
pub fn add(a: i64, b: i64, h: u64) -> Outcome
    requires { (h ≤ 2 ^ 31) × (mag a < h) × (mag b < h) }
    ensures { result ≡ sum_of h (a +ℤ b) }
{
    sum(ints::plus(a, b), h)
}

// SUB and DSUB.
pub fn sub(a: i64, b: i64, h: u64) -> Outcome
    requires { (h ≤ 2 ^ 31) × (mag a < h) × (mag b < h) }
    ensures { result ≡ sum_of h (a -ℤ b) }
{
    sum(ints::minus(a, b), h)
}

// INC and DINC: one more, and the lowest number after the largest.
pub fn inc(a: i64, h: u64) -> Outcome
    requires { (h ≤ 2 ^ 31) × (mag a < h) }
    ensures { result ≡ value (wrap h (a +ℤ pos 1)) }
{
    stored(ints::wrapped(ints::plus(a, 1), h))
}

// DEC and DDEC: one less, and the largest number before the lowest.
pub fn dec(a: i64, h: u64) -> Outcome
    requires { (h ≤ 2 ^ 31) × (mag a < h) }
    ensures { result ≡ value (wrap h (a -ℤ pos 1)) }
{
    stored(ints::wrapped(ints::minus(a, 1), h))
}

// DMUL: the low bits of the product. At 32 bits the modulus is a constant, so that no division is left.
pub fn mul(a: i64, b: i64, h: u64) -> Outcome
    requires { (h ≤ 2 ^ 31) × (mag a < h) × (mag b < h) }
    ensures { result ≡ value (wrap h (a *ℤ b)) }
{
    let z = ints::times(a, b);
    if h == 2147483648 {
        return stored(ints::wrapped(z, 2147483648));
    }
    stored(ints::wrapped(z, h))
}

// DIV and DDIV: quotient and remainder, or error 1 for a divisor of 0.
pub fn div(a: i64, b: i64, h: u64) -> Outcome
    requires { (h ≤ 2 ^ 31) × (mag a < h) }
    ensures { result ≡ div_of h a b }
{
    if ints::is_zero(b) {
        return refused(1);
    }
    let quotient = ints::wrapped(ints::quot(a, b), h);
    let remainder = ints::rest(a, b);
    both(quotient, remainder)
}

// The largest whole root of n, bit by bit from the top: 8 turns for a number of 16 bits, 16 for one of 32. With b the bit that is tried and s the
// root by the bits above it, place is b * b, r is s * 2b and rest is n - s * s: with that bit the square is larger by r + place, so the bit is in
// the root where rest has as much. Past the lowest bit r is the root. That it is 32 bits, and that the number says how many turns there are, keeps it
// in the step's loop at no cost to other programs (docs/BENCHMARKS.md, 'What was tried').
fn root(n: u64) -> u64
    requires { n < 2 ^ 32 }
    ensures { result ≡ root_of n }
{
    let mut rest = n as u32;
    let mut r: u32 = 0;
    let mut place: u32 = if rest < 65536 { 16384 } else { 1073741824 };
    while place > 0 {
        let more = r + place;
        r >>= 1;
        if more <= rest {
            rest -= more;
            r += place;
        }
        place >>= 2;
    }
    r as u64
}

// The root of n, with SM180 on if it is 0 and SM182 if a fraction was dropped.
fn whole_root(n: u64) -> Outcome
    requires { n < 2 ^ 32 }
    ensures { result ≡ rooted n (root_of n) }
{
    let r = root(n);
    let exact = r * r == n;
    judged(ints::whole(r), r == 0, false, !exact)
}

// SQT and DSQT: the root, or error 2 for a negative source.
pub fn sqt(a: i64) -> Outcome
    requires { mag a < 2 ^ 32 }
    ensures { result ≡ sqt_of a }
{
    if ints::less(a, 0) {
        return refused(2);
    }
    whole_root(ints::plain(a))
}

// VABS: the size of a, or error 2 for the lowest number.
pub fn vabs(a: i64, h: u64) -> Outcome
    requires { (h ≤ 2 ^ 31) × (mag a < h) }
    ensures { result ≡ vabs_of h a }
{
    let lowest = ints::is_lowest(a, h);
    if lowest {
        return refused(2);
    }
    let negative = ints::less(a, 0);
    if negative {
        return stored(ints::opposite(a));
    }
    stored(a)
}

// NEG: a with the other sign, or error 2 for the lowest number.
pub fn neg(a: i64, h: u64) -> Outcome
    requires { (h ≤ 2 ^ 31) × (mag a < h) }
    ensures { result ≡ neg_of h a }
{
    if ints::is_lowest(a, h) {
        refused(2)
    } else {
        stored(ints::opposite(a))
    }
}
