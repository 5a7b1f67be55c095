// Numbers in a case.
ghost use Rattle.std.specs.Prelude.{◌≡◌, ◌+◌, ◌%◌, ◌<◌, ◌≤◌, ◌^◌, length};
ghost use Rattle.std.specs.Int.Signed.{mag};
ghost use Rattle.ec20.specs.File.{u32_at};
ghost use Rattle.ec20.specs.Numbers.{half};
ghost use Rattle.ec20.specs.Numbers.{signed as Numbers·signed};

// One more than the largest number of width w.
pub fn half_of(w: usize) -> u64
    ensures { (result ≡ half w) × (0 < result) × (result ≤ 2 ^ 31) }
{
    if w == 16 { 32768 } else { 2147483648 }
}

// The signed number at byte i: the low bits of the four bytes, as many as width w has.
pub fn signed(r: &[u8], i: usize, w: usize) -> i64
    requires { i + 4 ≤ length r.now }
    ensures { (result ≡ Numbers·signed (half w) (u32_at r.now i % (half w + half w))) × (mag result < half w) }
{
    let u = records::u32_at(r, i) as u64;
    let h = half_of(w);
    ints::of_bits(u % (h + h), h)
}
