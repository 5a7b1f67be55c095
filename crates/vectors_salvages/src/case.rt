// A case: the torn file, how the output is made beforehand, what is wanted.
use cases::octets::least;
use cases::program::Judged;
use cases::{drawing, octets, reading};
use ec20::Refusal;
use torn::Saved;

#[derive(Clone, Copy)]
struct Asked {
    rule: u8,
    seed: u32,
    size: usize,
}

// The refusal (0: none) and its record, what is told, and the checksum of the output after.
#[derive(Clone, Copy)]
struct Wanted {
    number: usize,
    record: usize,
    kept: usize,
    added: usize,
    rest: usize,
    sum: u64,
}

fn read_asked(fd: i32) -> Asked {
    let rule = reading::u8_from(fd);
    reading::u8_from(fd);
    reading::u16_from(fd);
    let seed = reading::u32_from(fd) as u32;
    let size = reading::u32_from(fd);
    Asked { rule, seed, size }
}

fn read_wanted(fd: i32) -> Wanted {
    let number = reading::u32_from(fd);
    let record = reading::u32_from(fd);
    let kept = reading::u32_from(fd);
    let added = reading::u32_from(fd);
    let rest = reading::u32_from(fd);
    let sum = reading::u32_from(fd) as u64;
    Wanted {
        number,
        record,
        kept,
        added,
        rest,
        sum,
    }
}

fn same(s: Result<Saved, Refusal>, w: Wanted) -> bool {
    match s {
        Err(r) => {
            (w.number == r.number)
                & (w.record == r.at)
                & (w.kept == 0)
                & (w.added == 0)
                & (w.rest == 0)
        }
        Ok(saved) => {
            (w.number == 0)
                & (w.record == 0)
                & (w.kept == saved.kept)
                & (w.added == saved.added)
                & (w.rest == saved.rest)
        }
    }
}

// The salvage of what is lent, with an output of so many bytes, gives what is wanted. The checksum is of the whole output.
fn agrees(a: Asked, want: Wanted, torn: &[u8], out: &mut [u8]) -> bool {
    drawing::fill(out, 0, a.rule, a.seed);
    let s = salvage::salvage(torn, out);
    same(s, want) & (octets::checksum(out) == want.sum)
}

// The first n bytes are the torn file, and as much of the output as the case says is lent. No case lends more than there is.
fn part_agrees(a: Asked, want: Wanted, file: &[u8], n: usize) -> bool {
    let mut out = io::large_buffer();
    let bytes = least(n, file.len());
    let size = least(a.size, 65536);
    agrees(a, want, &file[..bytes], &mut out[..size])
}

// Which answer that is: 0 done with the END that was found, 17 with one that was added, else the number of the refusal.
fn answer(number: usize, added: usize) -> usize {
    if (number == 0) & (added == 1) {
        17
    } else {
        number
    }
}

// The rest of a case, whose file has n bytes.
pub fn next(fd: i32, file: &[u8; 65536], n: usize) -> Judged {
    let a = read_asked(fd);
    let want = read_wanted(fd);
    Judged {
        agrees: part_agrees(a, want, file, n),
        number: answer(want.number, want.added),
    }
}
