// The answer of a scan, and whether it is the one wanted.
ghost use Rattle.std.specs.Prelude.{true, ◌≡◌, Ok};
ghost use Rattle.vectors_scans.specs.Wants.{ran, told_by, plain_too};

use ec20::{Refusal, Report, Stop};

// The numbers of an answer: refusal (0: none) and its record; 0 refused, 1 ended, 2 watchdog; the steps, the record stopped at, the first
// error and its record.
#[derive(Clone, Copy, PartialEq, Eq)]
pub struct Answer {
    pub number: usize,
    pub told: usize,
    pub kind: usize,
    pub steps: usize,
    pub stop: usize,
    pub error: usize,
    pub at: usize,
}

fn told_run(kind: usize, r: Report) -> Answer
    ensures { result ≡ ran kind r }
{
    Answer {
        number: 0,
        told: 0,
        kind,
        steps: r.steps,
        stop: r.stop,
        error: r.error,
        at: r.at,
    }
}

fn of_stop(stop: Stop) -> Answer
    ensures { result ≡ told_by (Ok stop) }
{
    match stop {
        Stop::Ended(r) => told_run(1, r),
        Stop::Watchdog(r) => told_run(2, r),
    }
}

fn told(s: Result<Stop, Refusal>) -> Answer
    ensures { result ≡ told_by s }
{
    match s {
        Ok(stop) => of_stop(stop),
        Err(r) => Answer {
            number: r.number,
            told: r.at,
            kind: 0,
            steps: 0,
            stop: 0,
            error: 0,
            at: 0,
        },
    }
}

pub fn agrees(s: Result<Stop, Refusal>, want: Answer) -> bool
    ensures { (result ≡ true → told_by s ≡ want) × (told_by s ≡ want → result ≡ true) }
{
    told(s) == want
}

// Whether a scan without a budget answers the same.
pub fn is_plain(w: Answer, budget: u32) -> bool
    ensures { result ≡ plain_too w budget }
{
    (budget == 200000) | (!(w.kind == 2) & (w.steps <= 200000))
}
