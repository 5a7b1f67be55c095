// A case: the file, how the D table is made, the lines of the job, what is wanted.
ghost use Rattle.std.specs.Prelude.{length, ◌≡◌};

use cases::octets::least;
use cases::{drawing, octets, reading};
use jobs::JobRefusal;

// What came of a case: whether the job gave what is wanted, the number of that, 0 for done, and 17 if two lines meet, else 18.
#[derive(Clone, Copy)]
pub struct Judged {
    pub agrees: bool,
    pub number: usize,
    pub meeting: usize,
}

#[derive(Clone, Copy)]
struct Asked {
    rule: u8,
    seed: u32,
    words: usize,
    lines: usize,
}

// The refusal (0: none), its record and its lines, the moves, and the checksum of the words after.
#[derive(Clone, Copy)]
struct Wanted {
    number: usize,
    record: usize,
    line: usize,
    other: usize,
    moves: usize,
    sum: u64,
}

fn read_asked(fd: i32) -> Asked {
    let rule = reading::u8_from(fd);
    reading::u8_from(fd);
    reading::u16_from(fd);
    let seed = reading::u32_from(fd) as u32;
    let words = reading::u32_from(fd);
    let lines = reading::u32_from(fd);
    Asked {
        rule,
        seed,
        words,
        lines,
    }
}

fn read_wanted(fd: i32) -> Wanted {
    let number = reading::u32_from(fd);
    let record = reading::u32_from(fd);
    let line = reading::u32_from(fd);
    let other = reading::u32_from(fd);
    let moves = reading::u32_from(fd);
    let sum = reading::u32_from(fd) as u64;
    Wanted {
        number,
        record,
        line,
        other,
        moves,
        sum,
    }
}

// Zeros for as many words, and as many lines, as a case lends at most. They tell their lengths alone, so that no proof writes the zeros out.
fn most_words() -> [i16; 8192]
    ensures { 8192 ≡ length result }
{
    [0; 8192]
}

fn most_lines() -> [[u32; 3]; 70]
    ensures { 70 ≡ length result }
{
    [[0; 3]; 70]
}

fn put(lines: &mut [[u32; 3]], i: usize, start: u32, length: u32, place: u32) {
    if i < lines.len() {
        lines[i] = [start, length, place];
    }
}

// The next n lines of the file.
fn read_lines(fd: i32, lines: &mut [[u32; 3]], n: usize) {
    for i in 0..n {
        let start = reading::u32_from(fd) as u32;
        let length = reading::u32_from(fd) as u32;
        put(lines, i, start, length, reading::u32_from(fd) as u32);
    }
}

fn same(j: Result<usize, JobRefusal>, w: Wanted) -> bool {
    match j {
        Err(r) => {
            (w.number == r.number)
                & (w.record == r.at)
                & (w.line == r.line)
                & (w.other == r.other)
                & (w.moves == 0)
        }
        Ok(moves) => {
            (w.number == 0) & (w.record == 0) & (w.line == 0) & (w.other == 0) & (w.moves == moves)
        }
    }
}

// The changes that the file names are made, each at its offset.
fn change(fd: i32, file: &mut [u8]) {
    for _change in 0..reading::u16_from(fd) {
        let at = reading::u32_from(fd);
        octets::put(file, at, reading::u8_from(fd));
    }
}

// The bytes of the words.
fn bytes_of(d: &[i16], b: &mut [u8]) {
    for i in 0..b.len() {
        octets::put(b, i, image::byte_of(d, i));
    }
}

// The job over what is lent, whose words have their bytes in b, gives what is wanted.
fn agrees(
    a: Asked,
    want: Wanted,
    file: &mut [u8],
    lines: &[[u32; 3]],
    d: &mut [i16],
    b: &mut [u8],
) -> bool {
    drawing::fill(b, 0, a.rule, a.seed);
    image::fill_words(b, d);
    let j = job_moves::job(file, d, lines);
    bytes_of(d, b);
    same(j, want) & (octets::checksum(b) == want.sum)
}

// The first n bytes, and as many words and lines as the case says, are lent. No case lends more than there is.
fn part_agrees(a: Asked, want: Wanted, file: &mut [u8], n: usize, lines: &[[u32; 3]]) -> bool {
    let mut d = most_words();
    let mut b = io::large_buffer();
    let size = least(n, file.len());
    let count = least(a.lines, lines.len());
    let words = least(a.words, 8192);
    let bytes = 2 * words;
    agrees(
        a,
        want,
        &mut file[..size],
        &lines[..count],
        &mut d[..words],
        &mut b[..bytes],
    )
}

fn meeting(line: usize, other: usize) -> usize {
    if line == other { 18 } else { 17 }
}

// The rest of a case, whose file has n bytes. All bytes of the buffer are compared, so that the file is changed where it is said and nowhere
// else.
pub fn next(fd: i32, file: &[u8; 65536], n: usize) -> Judged {
    let a = read_asked(fd);
    let mut lines = most_lines();
    read_lines(fd, &mut lines, a.lines);
    let want = read_wanted(fd);
    let mut left = *file;
    let mut after = *file;
    change(fd, &mut after);
    let answered = part_agrees(a, want, &mut left, n, &lines);
    Judged {
        agrees: answered & (left == after),
        number: want.number,
        meeting: meeting(want.line, want.other),
    }
}
