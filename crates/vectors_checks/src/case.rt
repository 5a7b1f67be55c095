// A case: five numbers of four bytes, then the bytes of a program file.
use cases::program::Judged;
use ec20::{Accepted, Refusal};
use records::u32_at;

// The numbers after the length: refusal (0 for accepted), record told, records, steps.
fn same(v: Result<Accepted, Refusal>, h: &[u8; 20]) -> bool {
    let number = u32_at(h, 4);
    let told = u32_at(h, 8);
    let count = u32_at(h, 12);
    let w = u32_at(h, 16);
    match v {
        Ok(a) => (number == 0) & (told == 0) & (count == a.records) & (w == a.steps),
        Err(r) => (number == r.number) & (told == r.at) & (count == 0) & (w == 0),
    }
}

fn number_of(v: Result<Accepted, Refusal>) -> usize {
    match v {
        Ok(_) => 0,
        Err(r) => r.number,
    }
}

// The file of a case is as long as the bytes that are lent for it. One that ends early differs.
fn judge(fd: i32, h: &[u8; 20], file: &mut [u8]) -> Judged {
    let got = io::read_full(fd, file);
    let whole = got == file.len();
    let v = checker::check(file);
    Judged {
        agrees: whole & same(v, h),
        number: number_of(v),
    }
}

// No file in a case is longer than 44,125 bytes: a longer one differs.
pub fn next(fd: i32) -> Judged {
    let mut h = [0u8; 20];
    io::read_full(fd, &mut h);
    let size = u32_at(&h, 0);
    let mut buf = io::large_buffer();
    if size > 65536 {
        return Judged {
            agrees: false,
            number: 0,
        };
    }
    judge(fd, &h, &mut buf[..size])
}
