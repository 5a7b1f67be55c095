// A case of 32 bytes: a word instruction on values, or a pair of D words.
use crate::{number, outcome};
use ec20::Outcome;
use records::u32_at;

// What came of a case.
#[derive(Clone, Copy)]
pub enum Case {
    Agrees,
    Differs,
    Cut,
}

// The number of the instruction op at width w.
fn instruction(op: usize, w: usize) -> usize {
    if w == 16 {
        return op;
    }
    match op {
        32 => 48,
        33 => 49,
        34 => 50,
        35 => 52,
        36 => 53,
        37 => 54,
        38 => 55,
        _ => op,
    }
}

// The three flags are those of the number, bit by bit, and bit 7 says whether they are written.
fn same_flags(o: Outcome, flags: usize) -> bool {
    (o.zero == flags % 2)
        & (o.above == flags / 2 % 2)
        & (o.below == flags / 4 % 2)
        & (flags / 8 % 16 == 0)
        & (o.flags == flags / 128)
}

fn same_outcome(o: Outcome, r: &[u8; 32]) -> bool {
    let value = number::signed(r, 16, 32);
    let second = number::signed(r, 20, 32);
    (o.error == u32_at(r, 12))
        & (o.value == value)
        & (o.second == second)
        & same_flags(o, u32_at(r, 24))
}

fn word_agrees(r: &[u8; 32]) -> bool {
    let w = records::wide(r[1]);
    let n = instruction(records::wide(r[0]), w);
    let a = number::signed(r, 4, w);
    let b = number::signed(r, 8, w);
    same_outcome(outcome::compute(n, number::half_of(w), a, b), r)
}

// Op 200: two words, and the number that they are.
fn pair_agrees(r: &[u8; 32]) -> bool {
    let mut d = [0i16; 4];
    words::put_word(&mut d, 1, number::signed(r, 4, 16));
    words::put_word(&mut d, 2, number::signed(r, 8, 16));
    words::pair_at(&d, 1) == number::signed(r, 16, 32)
}

// Op 201: a number, and the two words that it is put in. The words beside them stay.
fn words_agree(r: &[u8; 32]) -> bool {
    let mut d = [7i16; 4];
    words::put_pair(&mut d, 1, number::signed(r, 4, 32));
    (words::word_at(&d, 0) == 7)
        & (words::word_at(&d, 1) == number::signed(r, 16, 32))
        & (words::word_at(&d, 2) == number::signed(r, 20, 32))
        & (words::word_at(&d, 3) == 7)
}

fn agrees(r: &[u8; 32]) -> bool {
    match r[0] {
        200 => pair_agrees(r),
        201 => words_agree(r),
        _ => word_agrees(r),
    }
}

pub fn run(fd: i32) -> Case {
    let mut r = [0u8; 32];
    if io::read_full(fd, &mut r) < 32 {
        return Case::Cut;
    }
    if agrees(&r) {
        Case::Agrees
    } else {
        Case::Differs
    }
}
