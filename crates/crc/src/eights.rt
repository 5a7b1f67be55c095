// Eight bytes at a time, with no table: 64 shifts at once. In each shift a bit falls out of the register. The polynomial puts it back so that it is added
// to the bits that fall out 1, 14 and 16 shifts later. So the 64 bits are those that fall out, added to themselves moved up by 1, 14 and 16. To undo
// that, they are moved up by the same, then by twice, by four times as much, and so on, until nothing is left in 64 bits. The register is then what the
// last 16 bits that fell out put into it.
ghost use Rattle.std.specs.Prelude.{◌+◌, ◌<◌, ◌≤◌, ◌^◌, length, ◌≡◌};
ghost use Rattle.crc.specs.Eights.{Takes, eights, outs_of, plus, plus2, plus3};

// Two bytes from number i on, the first lowest.
fn pair(s: &[u8], i: usize) -> usize
    requires { i + 2 ≤ length s.now }
    ensures { Takes s.now i 2 result × (result < 2 ^ 16) }
{
    usize::from(s[i]) ^ (usize::from(s[i + 1]) * 0x100)
}

// Four bytes from number i on, the first lowest.
fn quad(s: &[u8], i: usize) -> usize
    requires { i + 4 ≤ length s.now }
    ensures { Takes s.now i 4 result × (result < 2 ^ 32) }
{
    pair(s, i) ^ (pair(s, i + 2) * 0x10000)
}

// Eight bytes from number i on, the first lowest.
pub fn octet(s: &[u8], i: usize) -> usize
    requires { i + 8 ≤ length s.now }
    ensures { Takes s.now i 8 result }
{
    quad(s, i) ^ (quad(s, i + 4) * 0x1_0000_0000)
}

// x, added to itself moved up by k.
fn one(x: usize, k: usize) -> usize
    requires { k < 64 }
    ensures { result ≡ plus k x }
{
    x ^ (x << k)
}

// The same with two moves.
fn two(x: usize, j: usize, k: usize) -> usize
    requires { (j < 64) × (k < 64) }
    ensures { result ≡ plus2 j k x }
{
    x ^ (x << j) ^ (x << k)
}

// The same with three.
fn three(x: usize, i: usize, j: usize, k: usize) -> usize
    requires { (i < 64) × (j < 64) × (k < 64) }
    ensures { result ≡ plus3 i j k x }
{
    x ^ (x << i) ^ (x << j) ^ (x << k)
}

// The bits that 64 shifts let fall out, the first lowest.
fn outs(x: usize) -> usize
    ensures { result ≡ outs_of x }
{
    let a = three(three(x, 1, 14, 16), 2, 28, 32);
    one(one(one(two(a, 4, 56), 8), 16), 32)
}

// What 64 shifts make of x. (The remainder is no instruction: the compiler sees that 16 bits are left. It spares the proof a bound.)
pub fn fold(x: usize) -> usize
    ensures { (result ≡ eights 8 x) × (result < 65536) }
{
    let o = (outs(x) >> 48) % 65536;
    o ^ (o >> 2) ^ (o >> 15)
}
