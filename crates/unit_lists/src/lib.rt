// The report of a list of declarations that is lent as a slice.
#![tactic(auto)]

ghost use Rattle.std.specs.Prelude.{◌≡◌};
ghost use Rattle.units.specs.Clash.{listed};
ghost use Rattle.units.specs.Report.{reported, report_of};

use ec20::Refusal;
use units::Declaration;

// The report of a lent list into a lent report of pairs of places.
pub fn clashes(list: &[Declaration], report: &mut [[u32; 2]]) -> Result<usize, Refusal>
    ensures { reported result report.new ≡ report_of (listed list.now) report.old }
{
    clashes::lists::clashes_of(list, list.len(), report)
}
