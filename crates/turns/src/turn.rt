// What came of a scan of each program.
ghost use Rattle.turns.specs.Turns.{answer_of, Alike};
ghost use Rattle.std.specs.Prelude.{true, ◌≡◌, Ok};

use ec20::{Refusal, Stop};

// How a scan came out.
#[derive(Clone, Copy, PartialEq, Eq)]
pub enum Kind {
    Refused,
    Ended,
    Watchdog,
}

// What a scan answered. Where it is refused, steps is the number and stop the record.
#[derive(Clone, Copy, PartialEq, Eq)]
pub struct Answer {
    pub kind: Kind,
    pub steps: usize,
    pub stop: usize,
    pub error: usize,
    pub at: usize,
}

// apart: the first byte of the memory file at which the memories differ after exchange, if one does.
#[derive(Clone, Copy)]
pub struct Turn {
    pub old: Answer,
    pub new: Answer,
    pub apart: Option<usize>,
}

fn of_stop(stop: Stop) -> Answer
    ensures { result ≡ answer_of (Ok stop) }
{
    match stop {
        Stop::Ended(r) => Answer {
            kind: Kind::Ended,
            steps: r.steps,
            stop: r.stop,
            error: r.error,
            at: r.at,
        },
        Stop::Watchdog(r) => Answer {
            kind: Kind::Watchdog,
            steps: r.steps,
            stop: r.stop,
            error: r.error,
            at: r.at,
        },
    }
}

pub fn answer_of(s: Result<Stop, Refusal>) -> Answer
    ensures { result ≡ answer_of s }
{
    match s {
        Ok(stop) => of_stop(stop),
        Err(r) => Answer {
            kind: Kind::Refused,
            steps: r.number,
            stop: r.at,
            error: 0,
            at: 0,
        },
    }
}

// The answers are the same, and so are the memories after exchange.
pub fn is_alike(t: Turn) -> bool
    ensures { (result ≡ true → Alike t) × (Alike t → result ≡ true) }
{
    (t.old == t.new) & t.apart.is_none()
}
