// A case: the file, block and pool, what is wanted.
use cases::program::Judged;
use cases::{octets, reading};
use ec20::Refusal;

#[derive(Clone, Copy)]
struct Asked {
    start: u32,
    length: u32,
    pool_start: u32,
    pool_end: u32,
}

// The numbers of an answer: refusal (0: none), its record, the place.
#[derive(Clone, Copy)]
struct Answer {
    number: usize,
    record: usize,
    place: usize,
}

fn read_asked(fd: i32) -> Asked {
    let start = reading::u32_from(fd) as u32;
    let length = reading::u32_from(fd) as u32;
    let pool_start = reading::u32_from(fd) as u32;
    let pool_end = reading::u32_from(fd) as u32;
    Asked {
        start,
        length,
        pool_start,
        pool_end,
    }
}

fn read_wanted(fd: i32) -> Answer {
    let number = reading::u32_from(fd);
    let record = reading::u32_from(fd);
    let place = reading::u32_from(fd);
    Answer {
        number,
        record,
        place,
    }
}

fn same(m: Result<usize, Refusal>, want: Answer) -> bool {
    match m {
        Ok(place) => (want.number == 0) & (want.record == 0) & (want.place == place),
        Err(r) => (want.number == r.number) & (want.record == r.at) & (want.place == 0),
    }
}

// The changes that the file names are made, each at its offset.
fn change(fd: i32, file: &mut [u8]) {
    for _change in 0..reading::u16_from(fd) {
        let at = reading::u32_from(fd);
        octets::put(file, at, reading::u8_from(fd));
    }
}

// The move in the first n bytes gives what is wanted.
fn answer_agrees(file: &mut [u8], n: usize, a: Asked, want: Answer) -> bool {
    if n <= file.len() {
        let m = mover::move_block(&mut file[..n], a.start, a.length, a.pool_start, a.pool_end);
        return same(m, want);
    }
    false
}

// The rest of a case, whose file has n bytes. All bytes of the buffer are compared, so that the file is changed where it is said and nowhere
// else.
pub fn next(fd: i32, file: &[u8; 65536], n: usize) -> Judged {
    let a = read_asked(fd);
    let want = read_wanted(fd);
    let mut left = *file;
    let mut after = *file;
    change(fd, &mut after);
    let answered = answer_agrees(&mut left, n, a, want);
    Judged {
        agrees: answered & (left == after),
        number: want.number,
    }
}
