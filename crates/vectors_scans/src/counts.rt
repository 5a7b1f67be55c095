// What kinds of cases were met. Of the 18 counts: 0 ended; 1 to 9 refused by that number; 10 watchdog; 11 and 12 the first error 1 and 2;
// 13 to 15 a budget of 0, of 1, of the largest number; 16 ended with the last step of the budget; 17 also called without a budget.
ghost use Rattle.std.specs.Prelude.{◌≡◌};
ghost use Rattle.vectors_scans.specs.Counted.{answer_count, error_count, budget_count, last_count, plain_count, counted};

use crate::judge;
use crate::judge::Answer;
use cases::told::one_more;

fn of_answer(w: Answer) -> usize
    ensures { result ≡ answer_count w }
{
    let kind = w.kind;
    match kind {
        0 => w.number,
        1 => 0,
        _ => 10,
    }
}

// 18 is none of the counts, so that nothing is counted.
fn of_error(error: usize) -> usize
    ensures { result ≡ error_count error }
{
    match error {
        1 => 11,
        2 => 12,
        _ => 18,
    }
}

fn of_budget(budget: u32) -> usize
    ensures { result ≡ budget_count budget }
{
    match budget {
        0 => 13,
        1 => 14,
        4294967295 => 15,
        _ => 18,
    }
}

fn of_last_step(w: Answer, budget: u32) -> usize
    ensures { result ≡ last_count w budget }
{
    if (w.kind == 1) & (w.steps == budget as usize) {
        return 16;
    }
    18
}

fn of_plain(w: Answer, budget: u32) -> usize
    ensures { result ≡ plain_count w budget }
{
    if judge::is_plain(w, budget) {
        return 17;
    }
    18
}

// One case more, by what it wants and by its budget.
pub fn add(met: &mut [usize; 18], w: Answer, budget: u32)
    ensures { met.new ≡ counted w budget met.old }
{
    one_more(met, of_answer(w));
    one_more(met, of_error(w.error));
    one_more(met, of_budget(budget));
    one_more(met, of_last_step(w, budget));
    one_more(met, of_plain(w, budget));
}
