// Which of two declarations clash, and the report of a list. A list is looked at by its pairs once (rows), and the report is made from what was found (told).
// The pairs of a list that is lent as a slice are gone through in `lists`.
#![tactic(auto)]

pub mod lists;

ghost use Rattle.std.specs.Prelude.{ℕ, ◌+◌, ◌-◌, ◌<◌, ◌≤◌, ◌^◌, length, List, ◌++◌, ◌≡◌};
ghost use Rattle.clashes.specs.Rows.{right_block, grown_by, no_rows, with_row, noted, pairs_in, pairs_from, told_of};
ghost use Rattle.units.specs.Clash.{tabled, same_to, clash_of};
ghost use Rattle.units.specs.Report.{filled, reported, report_of};

use ec20::Refusal;
use units::{Declaration, Table};

// The rows of a list: which places clash with which, as numbers; and whether each block is neither empty nor out of range.
#[derive(Clone, Copy)]
pub struct Rows {
    pub right: bool,
    pub of: [u64; 64],
}

// Whether two names have the same eight bytes.
pub fn same_name(a: [u8; 8], b: [u8; 8]) -> bool
    ensures { result ≡ same_to 8 a b }
{
    a == b
}

// Whether two declarations clash.
pub fn clash(a: Declaration, b: Declaration) -> bool
    ensures { result ≡ clash_of a b }
{
    if same_name(a.name, b.name) {
        return !((a.start == b.start) & (a.length == b.length));
    }
    blocks::meets(
        a.start as usize,
        a.length as usize,
        b.start as usize,
        b.length as usize,
    )
}

// Whether the block is neither empty nor out of range.
fn right_block(a: Declaration) -> bool
    ensures { result ≡ right_block a }
{
    blocks::block_fault(a.start as usize, a.length as usize).is_ok()
}

// A row with one place more ahead of it.
pub fn grown(r: u64, c: bool) -> u64
    requires { r < 2 ^ 63 }
    ensures { result ≡ grown_by r c }
{
    if c { 1 + 2 * r } else { 2 * r }
}

pub fn no_rows() -> Rows
    ensures { result ≡ no_rows }
{
    Rows {
        right: true,
        of: [0; 64],
    }
}

// The row of place i put to the others.
pub fn with_row(r: Rows, i: usize, a: Declaration, row: u64) -> Rows
    requires { i < 64 }
    ensures { result ≡ with_row r i a row }
{
    let mut s = r;
    s.right = r.right & right_block(a);
    s.of[i] = row;
    s
}

// Notes places i and j as number `at` of the report, if c holds. Answers the number that comes next.
fn note(report: &mut [[u32; 2]], at: usize, c: bool, i: usize, j: usize) -> usize
    requires { (at < length report.old) × (i < 64) × (j < 64) }
    ensures value { result ≡ at + length (noted c i j) }
    ensures by_index { (s b : List (List ℕ)) → at ≡ length s → report.old ≡ filled s b → report.new ≡ filled (s ++ noted c i j) b }
{
    if c {
        report[at] = [i as u32, j as u32];
        return at + 1;
    }
    at
}

// The pairs of a row, which is that of place i, from number `from` of the report on. Answers the number that comes next.
fn tell_row(report: &mut [[u32; 2]], from: usize, row: u64, i: usize, n: usize) -> usize
    requires { (i < n) × (n ≤ 64) × (from + (n - (i + 1)) ≤ length report.old) }
    ensures value { result ≡ from + length (pairs_in row i (i + 1) (n - (i + 1))) }
    ensures by_index { (s b : List (List ℕ)) → from ≡ length s → report.old ≡ filled s b → report.new ≡ filled (s ++ pairs_in row i (i + 1) (n - (i + 1))) b }
{
    let mut r = row;
    let mut at = from;
    for j in i + 1..n {
        if r == 0 {
            return at;
        }
        at = note(report, at, r % 2 == 1, i, j);
        r /= 2;
    }
    at
}

// The pairs of all rows, from the start of the report on. Answers how many.
fn tell_rows(report: &mut [[u32; 2]], of: [u64; 64], n: usize) -> usize
    requires { (n ≤ 64) × (2016 ≤ length report.old) }
    ensures { (result ≡ length (pairs_from of 0 n)) × (report.new ≡ filled (pairs_from of 0 n) report.old) }
{
    let mut at: usize = 0;
    for i in 0..n {
        at = tell_row(report, at, of[i], i, n);
    }
    at
}

// The report of a list of n declarations, the first 64 of which have these rows.
pub fn told(r: Rows, n: usize, report: &mut [[u32; 2]]) -> Result<usize, Refusal>
    ensures { reported result report.new ≡ told_of r n report.old }
{
    if !((n <= 64) & r.right) {
        return Err(Refusal { number: 10, at: 0 });
    }
    if report.len() < 2016 {
        return Err(Refusal { number: 16, at: 0 });
    }
    Ok(tell_rows(report, r.of, n))
}

// The report of the first n declarations of a table; a list of over 64 has its first 64 there, and is refused.
pub fn clashes_in(t: Table, n: usize, report: &mut [[u32; 2]]) -> Result<usize, Refusal>
    ensures { reported result report.new ≡ report_of (tabled t n) report.old }
{
    lists::clashes_of(&t.at, n, report)
}
