// The check: every file gets an answer. 1 first; then the first record that breaks 2, 3 or 4; then 5, 6, 7 and 8, each over the whole program.
#![tactic(auto)]

ghost use Rattle.std.specs.Prelude.{IfOk, length, ◌≡◌};
ghost use Rattle.checker.specs.Accepted.{accepted_of};
ghost use Rattle.checker.specs.Stages.{from_records};
ghost use Rattle.ec20.specs.Check.{check_of};
ghost use Rattle.ec20.specs.Code.{program_in};
ghost use Rattle.ec20.specs.Control.{controls_of};
ghost use Rattle.ec20.specs.File.{records_from};
ghost use Rattle.labels.specs.Sound.{Sound};
ghost use Rattle.records.specs.Ranges.{Held};

use ec20::{Accepted, Frame, Refusal};
use instructions::RowTable;

// 2, 3 and 4 in record order, by the instruction table; then 5, 6, 7 and 8, each over the whole program.
fn judge(rows: &RowTable, f: &[u8], first: usize, count: usize) -> Result<Accepted, Refusal>
    requires held { Held (length f.now) first count }
    ensures { result ≡ from_records (records_from f.now first count) }
{
    faults::first_bad(rows, f, first, count)?;
    rungs::first_broken(rows, f, first, count)?;
    let w = match loops::walk(f, first, count) {
        Ok(walk) => walk.steps,
        Err(at) => return Err(Refusal { number: 6, at }),
    };
    labels::first_unlabelled(f, first, count)?;
    if w <= 10_000_000 {
        return Ok(Accepted {
            records: count,
            steps: w,
        });
    }
    Err(Refusal { number: 8, at: 0 })
}

// The check of a file: accepted, with its count of records and W; or refused, with the number and the record told. The instruction table is made
// once, where the frame is whole, and lent.
pub fn check(f: &[u8]) -> Result<Accepted, Refusal>
    ensures { result ≡ check_of f.now }
{
    let Some(Frame { first, count }) = records::frame(f) else {
        return Err(Refusal { number: 1, at: 0 });
    };
    let rows = instructions::table();
    judge(&rows, f, first, count)
}

// Of a file that the check accepts where its records begin, and how many there are; of any other why it is refused.
pub fn accept(f: &[u8]) -> Result<Frame, Refusal>
    ensures value { result ≡ accepted_of f.now }
    ensures held { IfOk result (λ w. Held (length f.now) w.first w.count) }
{
    check(f)?;
    Ok(records::frame(f).unwrap())
}
