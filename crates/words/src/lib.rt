// D words and pairs of them, over a lent table. What lies outside the table reads as 0, and a store there changes nothing, so that no
// function here asks its index to be in the table, but for the two at the end, whose caller has tested it.
#![tactic(auto)]

ghost use Rattle.std.specs.Prelude.{◌≡◌, ◌+◌, ◌<◌, ◌^◌, pos, ◌+ℤ◌, length, set};
ghost use Rattle.std.specs.Int.Signed.{mag};
ghost use Rattle.ec20.specs.Numbers.{half};
ghost use Rattle.ec20.specs.Registers.{word_at, pair_at, with_pair, number_at, with_number};

// z and 2 ^ 32 more: a number from 0 up, whose low 16 and low 32 bits are those of z.
fn raised(z: i64) -> u64
    requires { mag z < 2 ^ 31 }
    ensures { pos result ≡ z +ℤ pos (2 ^ 32) }
{
    ints::plain(ints::plus(z, 4294967296))
}

// Word i of the table.
pub fn word_at(d: &[i16], i: usize) -> i64
    ensures { (result ≡ word_at d.now i) × (mag result < 2 ^ 15) }
{
    if d.len() <= i {
        return 0;
    }
    ints::wide16(d[i])
}

// v in word i of the table.
pub fn put_word(d: &mut [i16], i: usize, v: i64)
    requires { mag v < 2 ^ 15 }
    ensures { d.new ≡ set d.old i v }
{
    if i < d.len() {
        d[i] = ints::narrow16(v);
    }
}

// The 32-bit number in the words i and i + 1, the high word first.
pub fn pair_at(d: &[i16], i: usize) -> i64
    requires { i < 2 ^ 63 }
    ensures { (result ≡ pair_at d.now i) × (mag result < 2 ^ 31) }
{
    let high = raised(word_at(d, i)) % 65536;
    let low = raised(word_at(d, i + 1)) % 65536;
    ints::of_bits(high * 65536 + low, 2147483648)
}

// v in the words i and i + 1, its high word first.
pub fn put_pair(d: &mut [i16], i: usize, v: i64)
    requires { (i < 2 ^ 63) × (mag v < 2 ^ 31) }
    ensures { d.new ≡ with_pair d.old i v }
{
    let u = raised(v) % 4294967296;
    put_word(d, i, ints::of_bits(u / 65536, 32768));
    put_word(d, i + 1, ints::of_bits(u % 65536, 32768));
}

// The number of w bits at i: a word at 16, a pair at 32.
pub fn number_at(d: &[i16], i: usize, w: usize) -> i64
    requires { i < 2 ^ 63 }
    ensures { (result ≡ number_at w d.now i) × (mag result < half w) }
{
    match w {
        16 => word_at(d, i),
        _ => pair_at(d, i),
    }
}

// v at i as a number of w bits: in a word at 16, in a pair at 32.
pub fn put_number(d: &mut [i16], i: usize, w: usize, v: i64)
    requires { (i < 2 ^ 63) × (mag v < half w) }
    ensures { d.new ≡ with_number w d.old i v }
{
    match w {
        16 => put_word(d, i, v),
        _ => put_pair(d, i, v),
    }
}

// The number of w bits at i, where the table goes on behind i: one test serves both words of a pair.
pub fn number_in(d: &[i16], i: usize, w: usize) -> i64
    requires { i + 1 < length d.now }
    ensures { (result ≡ number_at w d.now i) × (mag result < half w) }
{
    match w {
        16 => ints::wide16(d[i]),
        _ => {
            let high = raised(ints::wide16(d[i])) % 65536;
            let low = raised(ints::wide16(d[i + 1])) % 65536;
            ints::of_bits(high * 65536 + low, 2147483648)
        }
    }
}

// v at i as a number of w bits, where the table goes on behind i.
pub fn put_in(d: &mut [i16], i: usize, w: usize, v: i64)
    requires { (i + 1 < length d.old) × (mag v < half w) }
    ensures { d.new ≡ with_number w d.old i v }
{
    match w {
        16 => {
            d[i] = ints::narrow16(v);
        }
        _ => {
            let u = raised(v) % 4294967296;
            d[i] = ints::narrow16(ints::of_bits(u / 65536, 32768));
            d[i + 1] = ints::narrow16(ints::of_bits(u % 65536, 32768));
        }
    }
}
