// The check.
ghost use Rattle.ec20.specs.Answers.{told_by_check};
ghost use Rattle.ec20.specs.Check.{check_of};
ghost use Rattle.std.specs.Prelude.{◌≡◌};

// The check of the file f: the number of the refusal (0: accepted) and the record told, the count of records and W (0 and 0: refused).
#[unsafe(no_mangle)]
pub extern "C" fn ninhalto_check(
    f: &[u8],
    number: &mut usize,
    at: &mut usize,
    records: &mut usize,
    steps: &mut usize,
)
    ensures number_after { number.new ≡ (told_by_check (check_of f.now)).number }
    ensures at_after { at.new ≡ (told_by_check (check_of f.now)).at }
    ensures records_after { records.new ≡ (told_by_check (check_of f.now)).records }
    ensures steps_after { steps.new ≡ (told_by_check (check_of f.now)).steps }
{
    match checker::check(f) {
        Ok(accepted) => {
            *number = 0;
            *at = 0;
            *records = accepted.records;
            *steps = accepted.steps;
        }
        Err(refusal) => {
            *number = refusal.number;
            *at = refusal.at;
            *records = 0;
            *steps = 0;
        }
    }
}
