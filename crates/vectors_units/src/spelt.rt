// A unit list as text, and what is read from it.
use crate::counts::Judged;
use crate::{counts, declarations, tables};
use cases::octets::least;
use cases::reading;
use ec20::Refusal;
use unit_texts::Units;
use units::Table;

// Whether the first n declarations are the same, or all 64 where n is more.
fn same(t: Table, u: Table, n: usize) -> bool {
    let first = least(n, 64);
    t.at[..first] == u.at[..first]
}

// The refusal of what was read: 15 and its line; where there is none, 0 and 0.
fn refusal(fault: Result<(), Refusal>) -> Refusal {
    fault.err().unwrap_or(Refusal { number: 0, at: 0 })
}

// What was read is compared with what follows in the file: the refusal, the line, the number of declarations, and the first 64 of them.
fn judged(fd: i32, u: Units) -> Judged {
    let number = reading::u32_from(fd);
    let line = reading::u32_from(fd);
    let count = reading::u32_from(fd);
    let t = declarations::table(fd, least(count, 64));
    let alike = same(t, u.table, count);
    let told = refusal(u.fault);
    Judged {
        agrees: (told.number == number) & (told.at == line) & (u.count == count) & alike,
        answer: told.number,
        list: counts::of_list(count),
    }
}

pub fn next(fd: i32) -> Judged {
    let mut b = io::buffer();
    let n = tables::text(fd, &mut b);
    judged(fd, unit_texts::read(&b[..n]))
}
