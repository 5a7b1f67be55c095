// Bytes put, copied and summed, and how many of them are lent.
ghost use Rattle.std.specs.Prelude.{◌≡◌, ◌+◌, ◌*◌, ◌%◌, ◌≤◌, min, length, slice_set};
ghost use Rattle.ec20.specs.File.{byte_at};
ghost use Rattle.cases.specs.Filled.{copied};
ghost use Rattle.cases.specs.Summed.{sum_of};

// Byte i becomes v, where there is a byte i.
pub fn put(b: &mut [u8], i: usize, v: u8)
    ensures { b.new ≡ slice_set b.old i v }
{
    if i < b.len() {
        b[i] = v;
    }
}

// Byte i, 0 where there is none.
fn byte_at(b: &[u8], i: usize) -> u8
    ensures { result ≡ byte_at b.now i }
{
    if i < b.len() { b[i] } else { 0 }
}

// What is longer than `from` is 0 past it.
pub fn copy(from: &[u8], to: &mut [u8])
    ensures { to.new ≡ copied from.now (length to.old) }
{
    for i in 0..to.len() {
        to[i] = byte_at(from, i);
    }
}

pub fn least(a: usize, b: usize) -> usize
    ensures { (result ≡ min a b) × (result ≤ b) }
{
    a.min(b)
}

// Sums of the checksum, below 65521.
fn sum(a: u32, b: u32) -> u32
    ensures { result ≡ (a + b) % 65521 }
{
    ((a as u64 + b as u64) % 65521) as u32
}

fn joined(two: u32, one: u32) -> u64
    ensures { result ≡ two * 65536 + one }
{
    two as u64 * 65536 + one as u64
}

pub fn checksum(b: &[u8]) -> u64
    ensures { result ≡ sum_of b.now }
{
    let mut one: u32 = 1;
    let mut two: u32 = 0;
    for &byte in b {
        one = sum(one, u32::from(byte));
        two = sum(two, one);
    }
    joined(two, one)
}
