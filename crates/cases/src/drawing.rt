// Memories made by a rule and a seed: so many bytes of bits, then words of two bytes.
ghost use Rattle.std.specs.Prelude.{◌≡◌, ◌-◌, ◌%◌, length, ◌==◌};
ghost use Rattle.ec20.specs.Basics.{pick};
ghost use Rattle.cases.specs.Drawn.{risen_bytes, turned_of, draw_of, word_of, byte_by, drawn_bytes, filled_by};

// The first byte v, and each other so much more than the one before it.
fn rising(b: &mut [u8], first: u8, by: u8)
    ensures { b.new ≡ risen_bytes (length b.old) first by }
{
    let mut v = first;
    for i in 0..b.len() {
        b[i] = v;
        v = v.wrapping_add(by);
    }
}

// The state after a draw, and what is drawn.
fn turned(x: u32) -> u32
    ensures { result ≡ turned_of x }
{
    ((x as u64 * 1664525 + 1013904223) % 4294967296) as u32
}

fn drawn(x: u32) -> u8
    ensures { result ≡ draw_of x }
{
    (x / 16777216) as u8
}

// The bits of a word for what was drawn: (draw mod 16) - 4, or an edge.
fn word(rule: u8, draw: u8) -> u16
    ensures { result ≡ word_of rule draw }
{
    if rule == 3 {
        return u16::from(draw % 16).wrapping_add(65532);
    }
    let edges = [0u16, 1, 65535, 32767, 32768, 2, 1000, 34464];
    edges[(draw % 8) as usize]
}

// How far byte i lies past the bytes of bits.
fn past(i: usize, bits: usize) -> usize
    ensures { result ≡ i - bits }
{
    i.saturating_sub(bits)
}

// The state for byte i, after the one for the byte before it. The second byte of a word has no draw of its own.
fn next(x: u32, bits: usize, i: usize) -> u32
    ensures { result ≡ pick ((i - bits) % 2 == 0) (turned_of x) x }
{
    if past(i, bits) % 2 == 0 {
        return turned(x);
    }
    x
}

// Byte i, for which x was drawn.
fn byte(rule: u8, bits: usize, i: usize, x: u32) -> u8
    ensures { result ≡ byte_by rule bits i x }
{
    let draw = drawn(x);
    if i < bits {
        return draw;
    }
    let w = word(rule, draw);
    if past(i, bits) % 2 == 0 {
        return (w % 256) as u8;
    }
    (w / 256) as u8
}

// One draw for each of the bytes of bits, then one for each word.
fn draw(b: &mut [u8], bits: usize, rule: u8, seed: u32)
    ensures { b.new ≡ drawn_bytes (length b.old) bits rule seed }
{
    let mut x = seed;
    for i in 0..b.len() {
        x = next(x, bits, i);
        b[i] = byte(rule, bits, i, x);
    }
}

// The rules 0 to 5. Any other, as rule 6, leaves the bytes as they are.
pub fn fill(b: &mut [u8], bits: u16, rule: u8, seed: u32)
    ensures { b.new ≡ filled_by rule bits seed b.old }
{
    if rule > 5 {
        return;
    }
    let n = b.len();
    match rule {
        0 => rising(b, 0, 0),
        1 => rising(b, 255, 0),
        2 => draw(b, n, 2, seed),
        3 => draw(b, bits as usize, 3, seed),
        4 => rising(b, (seed % 256) as u8, 37),
        _ => draw(b, bits as usize, 5, seed),
    }
}
