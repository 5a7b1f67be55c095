// A list of declarations, and a report for its clashes.
use crate::counts::Judged;
use crate::{counts, declarations, reports, tables};
use cases::octets::least;
use cases::reading;
use ec20::Refusal;
use units::Table;

// The refusal (0: none), the record told, and the number of clashes.
#[derive(Clone, Copy)]
struct Wanted {
    number: usize,
    record: usize,
    count: usize,
}

fn read_wanted(fd: i32) -> Wanted {
    let number = reading::u32_from(fd);
    let record = reading::u32_from(fd);
    let count = reading::u32_from(fd);
    Wanted {
        number,
        record,
        count,
    }
}

fn same_answer(a: Result<usize, Refusal>, w: Wanted) -> bool {
    match a {
        Err(r) => (w.number == r.number) & (w.record == r.at) & (w.count == 0),
        Ok(count) => (w.number == 0) & (w.record == 0) & (w.count == count),
    }
}

// The call over as much of the report as is lent. No case lends more than there is.
fn called(t: Table, n: usize, room: usize, report: &mut [[u32; 2]]) -> Result<usize, Refusal> {
    let size = least(room, report.len());
    clashes::clashes_in(t, n, &mut report[..size])
}

// The report and what is wanted of it are filled alike first. All their pairs are compared, also those that are not lent.
fn judged(fd: i32, t: Table, n: usize, report: &mut [[u32; 2]], wanted: &mut [[u32; 2]]) -> Judged {
    let room = reading::u32_from(fd);
    let seed = reading::u32_from(fd) as u32;
    let w = read_wanted(fd);
    reports::fill(report, seed);
    reports::fill(wanted, seed);
    reports::pairs(fd, wanted, w.count);
    let a = called(t, n, room, report);
    Judged {
        agrees: same_answer(a, w) & (*report == *wanted),
        answer: counts::of_clashes(a),
        list: counts::of_list(n),
    }
}

pub fn next(fd: i32) -> Judged {
    let n = reading::u32_from(fd);
    let t = declarations::table(fd, n);
    let mut report = tables::report();
    let mut wanted = tables::report();
    judged(fd, t, n, &mut report, &mut wanted)
}
