// The rows of a list that is lent as a slice, and its report.
ghost use Rattle.std.specs.Prelude.{ℕ, ◌+◌, ◌-◌, ◌<◌, ◌≤◌, min, length, ◌≡◌};
ghost use Rattle.clashes.specs.Rows.{counted, row_of, rows_of};
ghost use Rattle.units.specs.Report.{reported, report_of};

use crate::Rows;
use ec20::Refusal;
use units::Declaration;

// The row of place i: its clashes with the places after it, up to place n, which is left out.
fn row(list: &[Declaration], i: usize, n: usize) -> u64
    requires { (i < n) × (n ≤ 64) × (n ≤ length list.now) }
    ensures { (k : ℕ) → result ≡ row_of (counted k list.now) i (i + 1) (n - (i + 1)) }
{
    let mut r: u64 = 0;
    for j in (i + 1..n).rev() {
        r = crate::grown(r, crate::clash(list[i], list[j]));
    }
    r
}

// The rows of the first n places.
fn rows_in(list: &[Declaration], n: usize) -> Rows
    requires { (n ≤ 64) × (n ≤ length list.now) }
    ensures { (k : ℕ) → result ≡ rows_of (counted k list.now) n n }
{
    let mut r = crate::no_rows();
    for i in 0..n {
        r = crate::with_row(r, i, list[i], row(list, i, n));
    }
    r
}

// The report of a list of n declarations, of which these are all, or the first 64 at least. One of over 64 is refused, so that no more of it is looked at.
pub fn clashes_of(list: &[Declaration], n: usize, report: &mut [[u32; 2]]) -> Result<usize, Refusal>
    requires { min n 64 ≤ length list.now }
    ensures { reported result report.new ≡ report_of (counted n list.now) report.old }
{
    crate::told(rows_in(list, n.min(64)), n, report)
}
