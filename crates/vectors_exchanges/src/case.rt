// A case: how the D table is made, block and place, what is wanted.
ghost use Rattle.std.specs.Prelude.{length, ◌≡◌};

use cases::program::Judged;
use cases::{drawing, octets, reading};
use ec20::Refusal;

#[derive(Clone, Copy)]
struct Asked {
    rule: u8,
    seed: u32,
    words: usize,
    start: u32,
    length: u32,
    place: u32,
}

// The refusal (0: none) and the checksum of the words after.
#[derive(Clone, Copy)]
struct Wanted {
    number: usize,
    sum: u64,
}

fn read_asked(fd: i32) -> Asked {
    let rule = reading::u8_from(fd);
    reading::u8_from(fd);
    reading::u16_from(fd);
    let seed = reading::u32_from(fd) as u32;
    let words = reading::u32_from(fd);
    let start = reading::u32_from(fd) as u32;
    let length = reading::u32_from(fd) as u32;
    let place = reading::u32_from(fd) as u32;
    Asked {
        rule,
        seed,
        words,
        start,
        length,
        place,
    }
}

fn read_wanted(fd: i32) -> Wanted {
    let number = reading::u32_from(fd);
    let sum = reading::u32_from(fd) as u64;
    Wanted { number, sum }
}

// Zeros for as many words as a case lends at most. It tells its length alone, so that no proof writes the zeros out.
fn most_words() -> [i16; 8192]
    ensures { 8192 ≡ length result }
{
    [0; 8192]
}

// The record told is always 0.
fn same(e: Result<(), Refusal>, number: usize) -> bool {
    match e {
        Ok(()) => number == 0,
        Err(r) => (number == r.number) & (r.at == 0),
    }
}

// The bytes of the words.
fn bytes_of(d: &[i16], b: &mut [u8]) {
    for i in 0..b.len() {
        octets::put(b, i, image::byte_of(d, i));
    }
}

// The exchange in the words that are lent, which have their bytes in b, gives what is wanted.
fn agrees(a: Asked, want: Wanted, d: &mut [i16], b: &mut [u8]) -> bool {
    drawing::fill(b, 0, a.rule, a.seed);
    image::fill_words(b, d);
    let e = exchange::exchange(d, a.start, a.length, a.place);
    bytes_of(d, b);
    same(e, want.number) & (octets::checksum(b) == want.sum)
}

// No case lends more than 8,192 words.
fn part_agrees(a: Asked, want: Wanted) -> bool {
    let mut d = most_words();
    let mut b = io::large_buffer();
    let words = a.words;
    if words > 8192 {
        return false;
    }
    let size = 2 * words;
    agrees(a, want, &mut d[..words], &mut b[..size])
}

pub fn next(fd: i32) -> Judged {
    let a = read_asked(fd);
    let want = read_wanted(fd);
    Judged {
        agrees: part_agrees(a, want),
        number: want.number,
    }
}
