// The clashes of a list of declarations.
ghost use Rattle.units.specs.Clash.{listed};
ghost use Rattle.units.specs.Report.{report_of, told_by_clashes};
ghost use Rattle.std.specs.Prelude.{◌≡◌};

use ec20::Refusal;
use units::Declaration;

// The number of the refusal (0: none) and how many clashes there are (0: refused).
fn told(c: Result<usize, Refusal>, number: &mut usize, count: &mut usize)
    ensures number_after { number.new ≡ (told_by_clashes c).number }
    ensures count_after { count.new ≡ (told_by_clashes c).count }
{
    match c {
        Err(refusal) => {
            *number = refusal.number;
            *count = 0;
        }
        Ok(k) => {
            *number = 0;
            *count = k;
        }
    }
}

// Every clash of a list into a report of pairs of places: the number of the refusal (0: none) and how many clashes there are (0: refused).
#[unsafe(no_mangle)]
pub extern "C" fn ninhalto_clashes(
    list: &[Declaration],
    report: &mut [[u32; 2]],
    number: &mut usize,
    count: &mut usize,
)
    ensures report_after { report.new ≡ (report_of (listed list.now) report.old).report }
    ensures number_after { number.new ≡ (told_by_clashes (report_of (listed list.now) report.old).answer).number }
    ensures count_after { count.new ≡ (told_by_clashes (report_of (listed list.now) report.old).answer).count }
{
    told(unit_lists::clashes(list, report), number, count)
}
