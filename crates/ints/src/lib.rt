// Leaf operations on signed numbers: each states its result in ℤ, so that a caller's proof sees no bits.
#![tactic(auto)]

ghost use Rattle.std.specs.Prelude.{◌≡◌, ◌+◌, ◌<◌, ◌^◌, pos, neg_ℤ, ◌+ℤ◌, ◌-ℤ◌, ◌*ℤ◌, false};
ghost use Rattle.ec20.specs.Numbers.{low, signed, wrap, is_zero, is_above, is_below, is_lowest};
ghost use Rattle.std.specs.Int.Signed.{lt_z, quot_z, rem_z};
ghost use Rattle.std.specs.Int.{w16, w64};
ghost use Rattle.std.proofs.Common.{SFits};

// A 16-bit number as a 64-bit one, and back.
pub fn wide16(x: i16) -> i64
    ensures { result ≡ x }
{
    x as i64
}

pub fn narrow16(x: i64) -> i16
    requires { SFits w16 x }
    ensures { result ≡ x }
{
    x as i16
}

// The sum, the difference, the opposite and the product, where they fit.
pub fn plus(a: i64, b: i64) -> i64
    requires { SFits w64 (a +ℤ b) }
    ensures { result ≡ a +ℤ b }
{
    a + b
}

pub fn minus(a: i64, b: i64) -> i64
    requires { SFits w64 (a -ℤ b) }
    ensures { result ≡ a -ℤ b }
{
    a - b
}

pub fn opposite(z: i64) -> i64
    requires { SFits w64 (neg_ℤ z) }
    ensures { result ≡ neg_ℤ z }
{
    -z
}

pub fn times(a: i64, b: i64) -> i64
    requires { SFits w64 (a *ℤ b) }
    ensures { result ≡ a *ℤ b }
{
    a * b
}

// Whether a is below b.
pub fn less(a: i64, b: i64) -> bool
    ensures { result ≡ lt_z a b }
{
    a < b
}

// An unsigned number as a signed one, and a signed one that is not below 0 as an unsigned one.
pub fn whole(u: u64) -> i64
    requires { u < 2 ^ 63 }
    ensures { result ≡ pos u }
{
    u as i64
}

pub fn plain(z: i64) -> u64
    requires { lt_z z (pos 0) ≡ false }
    ensures { pos result ≡ z }
{
    z as u64
}

// The low bits of z, of which there are as many as m has values: 65536 at 16 bits.
pub fn bits(z: i64, m: u64) -> u64
    requires { 0 < m }
    ensures { result ≡ low m z }
{
    if less(z, 0) {
        let n = plain(minus(-1, z));
        (m - 1) - n % m
    } else {
        plain(z) % m
    }
}

// The bits u as a signed number of the range from -h to h - 1.
pub fn of_bits(u: u64, h: u64) -> i64
    requires { (u < h + h) × (h < 2 ^ 62) }
    ensures { result ≡ signed h u }
{
    if u < h {
        whole(u)
    } else {
        minus(whole(u), whole(h + h))
    }
}

// Whether z is 0.
pub fn is_zero(z: i64) -> bool
    ensures { result ≡ is_zero z }
{
    z == 0
}

// The bits of a 16-bit number, and the 16-bit number of the bits u.
pub fn bits16(x: i16) -> u64
    ensures { (result ≡ low 65536 x) × (result < 65536) }
{
    bits(wide16(x), 65536)
}

pub fn of_bits16(u: u64) -> i16
    requires { u < 65536 }
    ensures { result ≡ signed 32768 u }
{
    narrow16(of_bits(u, 32768))
}

// The low bits of z as a signed number of the range from -h to h - 1.
pub fn wrapped(z: i64, h: u64) -> i64
    requires { (0 < h) × (h < 2 ^ 62) }
    ensures { result ≡ wrap h z }
{
    of_bits(bits(z, h + h), h)
}

// The lowest number of the range from -h to h - 1.
fn lowest(h: u64) -> i64
    requires { h < 2 ^ 63 }
    ensures { result ≡ neg_ℤ (pos h) }
{
    opposite(whole(h))
}

// Whether z is above, and whether it is below, the range from -h to h - 1.
pub fn is_above(z: i64, h: u64) -> bool
    requires { h < 2 ^ 63 }
    ensures { result ≡ is_above h z }
{
    !less(z, whole(h))
}

pub fn is_below(z: i64, h: u64) -> bool
    requires { h < 2 ^ 63 }
    ensures { result ≡ is_below h z }
{
    less(z, lowest(h))
}

// Whether z is the lowest number of the range from -h to h - 1.
pub fn is_lowest(z: i64, h: u64) -> bool
    requires { h < 2 ^ 63 }
    ensures { result ≡ is_lowest h z }
{
    !less(lowest(h), z)
}

// The quotient rounded toward zero, and the remainder with the dividend's sign.
pub fn quot(a: i64, b: i64) -> i64
    requires { (is_zero b ≡ false) × SFits w64 (quot_z a b) }
    ensures { result ≡ quot_z a b }
{
    a / b
}

pub fn rest(a: i64, b: i64) -> i64
    requires { (is_zero b ≡ false) × SFits w64 (quot_z a b) }
    ensures { result ≡ rem_z a b }
{
    a % b
}
