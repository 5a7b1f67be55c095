// What came of a case, and what kinds of answers were met. Of the 20 counts: 10, 15 and 16 refused by that number; 0 no clash, nothing, or all spelt;
// 1 some clashes, or a part of the first text; 2 all 2,016 clashes, or a part of the second; 17 neither text; 18 a list of at most 64; 19 a longer one.
ghost use Rattle.std.specs.Prelude.{◌≡◌};
ghost use Rattle.vectors_units.specs.Counted.{list_count, clash_count};

use cases::told::line;
use ec20::Refusal;

// Whether the case agrees, the count of its answer, and that of its list.
#[derive(Clone, Copy)]
pub struct Judged {
    pub agrees: bool,
    pub answer: usize,
    pub list: usize,
}

// The count of a list of n declarations.
pub fn of_list(n: usize) -> usize
    ensures { result ≡ list_count n }
{
    if n > 64 { 19 } else { 18 }
}

// The count of a list's answer.
pub fn of_clashes(a: Result<usize, Refusal>) -> usize
    ensures { result ≡ clash_count a }
{
    match a {
        Err(r) => r.number,
        Ok(0) => 0,
        Ok(2016) => 2,
        Ok(_) => 1,
    }
}

fn of_lists(met: &[usize; 20]) {
    line(b"refusal 10", met[10]);
    line(b"refusal 16", met[16]);
    line(b"no clash", met[0]);
    line(b"some clashes", met[1]);
    line(b"2016 clashes", met[2]);
    line(b"over 64", met[19]);
}

fn of_texts(met: &[usize; 20]) {
    line(b"first", met[1]);
    line(b"second", met[2]);
    line(b"nothing", met[0]);
}

fn of_unit_lists(met: &[usize; 20]) {
    line(b"refusal 15", met[15]);
    line(b"all spelt", met[0]);
}

// The counts of a file of this kind.
pub fn tell(kind: usize, met: &[usize; 20]) {
    match kind {
        8 => of_lists(met),
        9 => of_texts(met),
        _ => of_unit_lists(met),
    }
}
