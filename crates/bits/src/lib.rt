// Bits packed eight to a byte, the lowest number in the lowest bit, and groups of them, by shifts and masks. A bit outside the table reads
// as 0, and a store there changes nothing, so that no function here asks its bits to be in the table.
#![tactic(auto)]

ghost use Rattle.std.specs.Prelude.{length, get_or, ◌≡◌, ℕ, ◌+◌, ◌*◌, ◌<◌, ◌≤◌, ◌^◌};
ghost use Rattle.std.specs.Int.Signed.{mag};
ghost use Rattle.ec20.specs.Numbers.{bits_in, half};
ghost use Rattle.ec20.specs.Bits.{bit_at, byte_with, with_bit, packed, spread, group_size, group_at, with_group};

// Bit number k of the table: 0 or 1.
pub fn bit_at(bits: &[u8], k: usize) -> usize
    ensures { (result ≡ bit_at bits.now k) × (result < 2) }
{
    let at = k / 8;
    if at < bits.len() {
        (bits[at] as usize >> (k % 8)) & 1
    } else {
        0
    }
}

// x with b, 0 or 1, for bit j.
fn byte_with(x: u8, j: usize, b: usize) -> u8
    requires { (j < 8) × (b < 2) }
    ensures { result ≡ byte_with x j b }
{
    let y = x as usize;
    (y - (y & (1 << j)) + (b << j)) as u8
}

// b, 0 or 1, for bit number k of the table.
pub fn put_bit(bits: &mut [u8], k: usize, b: usize)
    requires { b < 2 }
    ensures { bits.new ≡ with_bit bits.old k b }
{
    let at = k / 8;
    if at < bits.len() {
        bits[at] = byte_with(bits[at], k % 8, b);
    }
}

// The eight bytes from byte `at` on as one number, the first lowest. The compiler makes one load of it.
fn eight(bits: &[u8], at: usize) -> u64
    requires { at + 8 ≤ length bits.now }
    ensures { result ≡ packed bits.now (8 * at) 64 }
{
    u64::from_le_bytes([
        bits[at],
        bits[at + 1],
        bits[at + 2],
        bits[at + 3],
        bits[at + 4],
        bits[at + 5],
        bits[at + 6],
        bits[at + 7],
    ])
}

// The same at the table's end: a byte that the table does not have is 0.
fn fewer(bits: &[u8], at: usize) -> u64
    requires { at < 2 ^ 63 }
    ensures { result ≡ packed bits.now (8 * at) 64 }
{
    let mut v: u64 = 0;
    for i in 0..8 {
        if at + i < bits.len() {
            v |= (bits[at + i] as u64) << (8 * i);
        }
    }
    v
}

// The 64 bits from byte `at` on as a number, the first lowest.
fn bytes_from(bits: &[u8], at: usize) -> u64
    requires { at < 2 ^ 63 }
    ensures { result ≡ packed bits.now (8 * at) 64 }
{
    if at + 8 <= bits.len() {
        eight(bits, at)
    } else {
        fewer(bits, at)
    }
}

// The size bits from number first on as a number, the first lowest: they are among the 64 from the first one's byte on.
fn gather(bits: &[u8], first: usize, size: usize) -> u64
    requires { (size ≤ 32) × (first < 2 ^ 63) }
    ensures { (result ≡ packed bits.now first size) × (result < 2 ^ size) }
{
    let x = bytes_from(bits, first / 8);
    (x >> (first % 8)) & ((1 << size) - 1)
}

// v in the eight bytes from byte `at` on, its lowest byte first. The compiler makes one store of the eight.
fn put_eight(bits: &mut [u8], at: usize, v: u64)
    requires { (at + 8 ≤ length bits.old) × ((k : ℕ) → get_or bits.old k 0 < 256) }
    ensures { bits.new ≡ spread bits.old (8 * at) 64 v }
{
    bits[at..at + 8].copy_from_slice(&v.to_le_bytes());
}

// The same at the table's end: a byte that the table does not have is left out.
fn put_fewer(bits: &mut [u8], at: usize, v: u64)
    requires { (at < 2 ^ 63) × ((k : ℕ) → get_or bits.old k 0 < 256) }
    ensures { bits.new ≡ spread bits.old (8 * at) 64 v }
{
    for i in 0..8 {
        if at + i < bits.len() {
            bits[at + i] = ((v >> (8 * i)) % 256) as u8;
        }
    }
}

// The low bits of v in the size bits from number first on, the lowest first: of the 64 from the first one's byte on what stands above them,
// then these, then what stands below. The others get back what they had.
fn scatter(bits: &mut [u8], first: usize, size: usize, v: u64)
    requires { (size ≤ 32) × (first < 2 ^ 63) }
    ensures { bits.new ≡ spread bits.old first size v }
{
    let at = first / 8;
    let s = first % 8;
    let e = s + size;
    let x = bytes_from(bits, at);
    let w = ((x >> e) << e) | (((v & ((1 << size) - 1)) << s) | (x & ((1 << s) - 1)));
    if at + 8 <= bits.len() {
        put_eight(bits, at, w);
    } else {
        put_fewer(bits, at, w);
    }
}

// How many bits there are to a number of width w.
fn width(w: usize) -> usize
    ensures { result ≡ bits_in w }
{
    if w == 16 { 16 } else { 32 }
}

// One more than the largest number of width w.
fn half_of(w: usize) -> u64
    ensures { result ≡ half w }
{
    if w == 16 { 32768 } else { 2147483648 }
}

// How many bits a group of size n has as a number of width w: 4n, and never more than the width.
fn group_size(n: usize, w: usize) -> usize
    ensures { (result ≡ group_size w n) × (result ≤ 32) }
{
    let all = width(w);
    4 * n.min(all / 4)
}

// The number in the group of size n from number first on, as one of width w.
pub fn group_at(bits: &[u8], first: usize, n: usize, w: usize) -> i64
    requires { first < 2 ^ 63 }
    ensures { (result ≡ group_at w bits.now first n) × (mag result < half w) }
{
    let size = group_size(n, w);
    ints::of_bits(gather(bits, first, size), half_of(w))
}

// The low bits of v in the group of size n from number first on, as a number of width w. There are two calls of `scatter`, so that it is
// called, and not inlined wherever a word instruction stores (docs/BENCHMARKS.md).
pub fn put_group(bits: &mut [u8], first: usize, n: usize, w: usize, v: i64)
    requires { (first < 2 ^ 63) × (mag v < half w) }
    ensures { bits.new ≡ with_group w bits.old first n v }
{
    if w == 16 {
        scatter(bits, first, group_size(n, 16), ints::bits(v, 65536));
    } else {
        scatter(bits, first, group_size(n, 32), ints::bits(v, 4294967296));
    }
}
