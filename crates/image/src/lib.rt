// The memory as a file has it: 16,892 bytes. First the bits (X 32 bytes, Y 32, M 250, SM 32, T contacts 32), then 8,000 D words and 256 T
// values of two bytes each, the low byte first, then the two leftovers: that of the 10 ms timers and that of the 100 ms timers.
#![tactic(auto)]

ghost use Rattle.std.specs.Prelude.{◌/◌, ◌<◌, length, pos, ◌≡◌};
ghost use Rattle.image.specs.Image.{Filled, word_in, byte_of, part, bit_byte, image_byte, plant_of, image_of, Sizes, Word16};
ghost use Rattle.std.specs.Int.Signed.{mag};
ghost use Rattle.ec20.specs.File.{byte_at};
ghost use Rattle.ec20.specs.Memory.{memory};
ghost use Rattle.ec20.specs.Plant.{plant};
ghost use Rattle.ec20.specs.Registers.{word_at};

// Byte i, 0 where there is none.
fn byte_at(b: &[u8], i: usize) -> u8
    ensures { result ≡ byte_at b.now i }
{
    b.get(i).copied().unwrap_or(0)
}

// Word i of the bytes, 0 where they are not there.
fn word_in(b: &[u8], i: usize) -> i16
    ensures { result ≡ word_in b.now i }
{
    if i < b.len() / 2 {
        ints::of_bits16(records::u16_at(b, 2 * i) as u64)
    } else {
        0
    }
}

// Byte i of the words, 0 where they are not there. The word has 16 bits.
pub fn byte_of(d: &[i16], i: usize) -> u8
    ensures value { result ≡ byte_of d.now i }
    ensures i_bound { mag (word_at d.now (i / 2)) < 32768 }
{
    let u = ints::bits(words::word_at(d, i / 2), 65536);
    if i % 2 == 0 {
        (u % 256) as u8
    } else {
        (u / 256) as u8
    }
}

// A table of bytes from the bytes.
pub fn fill_bytes(b: &[u8], to: &mut [u8])
    ensures { Filled 0 (length to.old) (λ i. byte_at b.now i) to.new }
{
    for i in 0..to.len() {
        to[i] = byte_at(b, i);
    }
}

// A table of words from the bytes.
pub fn fill_words(b: &[u8], to: &mut [i16])
    ensures { Filled (pos 0) (length to.old) (λ i. word_in b.now i) to.new }
{
    for i in 0..to.len() {
        to[i] = word_in(b, i);
    }
}

// The tables and the leftovers from the bytes of a memory file, each entry of each table: its own bytes, 0 past them. Tables of a memory file's sizes
// are those that the bytes mean, and no byte is lost in them.
pub fn split(
    b: &[u8],
    x: &mut [u8],
    y: &mut [u8],
    m: &mut [u8],
    sm: &mut [u8],
    t: &mut [u8],
    d: &mut [i16],
    tv: &mut [i16],
    rest: &mut [u8],
)
    requires { length b.now ≡ 16892 }
    ensures filled { Filled 0 (length x.old) (λ i. byte_at (part 0 32 b.now) i) x.new }
    ensures filled_2 { Filled 0 (length y.old) (λ i. byte_at (part 32 32 b.now) i) y.new }
    ensures filled_3 { Filled 0 (length m.old) (λ i. byte_at (part 64 250 b.now) i) m.new }
    ensures filled_4 { Filled 0 (length sm.old) (λ i. byte_at (part 314 32 b.now) i) sm.new }
    ensures filled_5 { Filled 0 (length t.old) (λ i. byte_at (part 346 32 b.now) i) t.new }
    ensures filled_6 { Filled (pos 0) (length d.old) (λ i. word_in (part 378 16000 b.now) i) d.new }
    ensures filled_7 { Filled (pos 0) (length tv.old) (λ i. word_in (part 16378 512 b.now) i) tv.new }
    ensures filled_8 { Filled 0 (length rest.old) (λ i. byte_at (part 16890 2 b.now) i) rest.new }
    ensures rest_after { Sizes (plant (memory x.old y.old m.old sm.old t.old d.old tv.old) rest.old) → plant (memory x.new y.new m.new sm.new t.new d.new tv.new) rest.new ≡ plant_of b.now }
    ensures b_value { image_of (plant_of b.now) ≡ b.now }
{
    fill_bytes(&b[0..32], x);
    fill_bytes(&b[32..64], y);
    fill_bytes(&b[64..314], m);
    fill_bytes(&b[314..346], sm);
    fill_bytes(&b[346..378], t);
    fill_words(&b[378..16378], d);
    fill_words(&b[16378..16890], tv);
    fill_bytes(&b[16890..16892], rest);
}

// Byte i of a memory file with these tables: the bits.
fn bit_byte(x: &[u8], y: &[u8], m: &[u8], sm: &[u8], t: &[u8], i: usize) -> u8
    ensures { result ≡ bit_byte x.now y.now m.now sm.now t.now i }
{
    match i {
        0..=31 => byte_at(x, i),
        32..=63 => byte_at(y, i - 32),
        64..=313 => byte_at(m, i - 64),
        314..=345 => byte_at(sm, i - 314),
        _ => byte_at(t, i - 346),
    }
}

// The same of all tables and the leftovers.
fn image_byte(
    x: &[u8],
    y: &[u8],
    m: &[u8],
    sm: &[u8],
    t: &[u8],
    d: &[i16],
    tv: &[i16],
    rest: &[u8],
    i: usize,
) -> u8
    ensures value { result ≡ image_byte (plant (memory x.now y.now m.now sm.now t.now d.now tv.now) rest.now) i }
    ensures word16 { Word16 d.now tv.now i }
{
    match i {
        0..=377 => bit_byte(x, y, m, sm, t, i),
        378..=16377 => byte_of(d, i - 378),
        16378..=16889 => byte_of(tv, i - 16378),
        _ => byte_at(rest, i - 16890),
    }
}

// The bytes of a memory file from the tables and the leftovers. What a table lacks is 0. Nothing of tables of a memory file's sizes is lost in them.
pub fn join(
    x: &[u8],
    y: &[u8],
    m: &[u8],
    sm: &[u8],
    t: &[u8],
    d: &[i16],
    tv: &[i16],
    rest: &[u8],
    b: &mut [u8],
)
    ensures filled { Filled 0 (length b.old) (λ i. image_byte (plant (memory x.now y.now m.now sm.now t.now d.now tv.now) rest.now) i) b.new }
    ensures b_after { length b.old ≡ 16892 → b.new ≡ image_of (plant (memory x.now y.now m.now sm.now t.now d.now tv.now) rest.now) }
    ensures b_after_2 { length b.old ≡ 16892 → Sizes (plant (memory x.now y.now m.now sm.now t.now d.now tv.now) rest.now) → plant_of b.new ≡ plant (memory x.now y.now m.now sm.now t.now d.now tv.now) rest.now }
{
    for i in 0..b.len() {
        b[i] = image_byte(x, y, m, sm, t, d, tv, rest, i);
    }
}
