// What there is before a call: the tables and the frame.
ghost use Rattle.std.specs.Prelude.{◌≤◌, pos, length, ◌≡◌};
ghost use Rattle.cases.specs.Filled.{copied};
ghost use Rattle.image.specs.Image.{Filled, word_in};
ghost use Rattle.vectors_requests.specs.Anew.{made_by, Anew};

use cases::{drawing, octets};

// The rest of a longer table is 0.
fn bits_anew(rule: u8, seed: u32, b: &mut [u8], m: &mut [u8])
    requires { (rule ≤ 5) × (length b.old ≡ 250) }
    ensures { m.new ≡ copied (made_by rule 250 seed 250) (length m.old) }
{
    drawing::fill(b, 250, rule, seed);
    octets::copy(b, m);
}

fn words_anew(rule: u8, seed: u32, b: &mut [u8], d: &mut [i16], e: &mut [i16])
    requires { (rule ≤ 5) × (length b.old ≡ 16000) }
    ensures filled { Filled (pos 0) (length d.old) (λ i. word_in (made_by rule 0 seed 16000) i) d.new }
    ensures filled_2 { Filled (pos 0) (length e.old) (λ i. word_in (made_by rule 0 seed 16000) i) e.new }
{
    drawing::fill(b, 0, rule, seed);
    image::fill_words(b, d);
    image::fill_words(b, e);
}

// Both tables by their rule, and once more the words, as they are wanted: 250 bytes and 8,000 words, and 0 past them. Rule 6: as the case before
// left them.
pub fn anew(rule: u8, seed: u32, m: &mut [u8], d: &mut [i16], e: &mut [i16])
    ensures { Anew rule seed m.old m.new d.old d.new e.old e.new }
{
    if rule > 5 {
        return;
    }
    let mut b = io::large_buffer();
    bits_anew(rule, seed, &mut b[..250], m);
    let mut c = io::large_buffer();
    words_anew(rule, seed, &mut c[..16000], d, e);
}

pub fn frame(fd: i32, f: &mut [u8], n: usize) {
    if n <= f.len() {
        io::read_full(fd, &mut f[..n]);
    }
}
