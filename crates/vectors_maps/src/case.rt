// A case: the file, what is wanted.
ghost use Rattle.std.specs.Prelude.{length, ◌≡◌};

use cases::program::Judged;
use cases::reading;

// No word is marked. It tells its length alone, so that no proof writes the zeros out.
fn unmarked() -> [u8; 1000]
    ensures { 1000 ≡ length result }
{
    [0; 1000]
}

// The words before `end` from `first` on are marked, if they are so used.
fn mark(map: &mut [u8; 1000], used: bool, first: usize, end: usize) {
    if used {
        for i in first..end {
            bits::put_bit(map, i, 1);
        }
    }
}

// The maps of the runs that the file names.
fn wanted(fd: i32, read: &mut [u8; 1000], written: &mut [u8; 1000]) {
    for _run in 0..reading::u16_from(fd) {
        let first = reading::u16_from(fd);
        let end = reading::u16_from(fd) + 1;
        let marks = reading::u8_from(fd);
        mark(read, marks % 2 == 1, first, end);
        mark(written, marks / 2 == 1, first, end);
    }
}

// What is told of the file's map is what is wanted.
fn agrees(
    file: &[u8],
    number: usize,
    record: usize,
    read: &[u8; 1000],
    written: &[u8; 1000],
) -> bool {
    let m = usemap::told(usemap::use_map(file));
    (m.number == number) & (m.at == record) & (m.read == *read) & (m.written == *written)
}

fn part_agrees(
    file: &[u8],
    n: usize,
    number: usize,
    record: usize,
    read: &[u8; 1000],
    written: &[u8; 1000],
) -> bool {
    if n <= file.len() {
        return agrees(&file[..n], number, record, read, written);
    }
    false
}

// The rest of a case, whose file has n bytes.
pub fn next(fd: i32, file: &[u8; 65536], n: usize) -> Judged {
    let number = reading::u32_from(fd);
    let record = reading::u32_from(fd);
    let mut read = unmarked();
    let mut written = unmarked();
    wanted(fd, &mut read, &mut written);
    Judged {
        agrees: part_agrees(file, n, number, record, &read, &written),
        number,
    }
}
