// What came of a call.
ghost use Rattle.calls.specs.Results.{number_of_status, status_by};
ghost use Rattle.calls.specs.declared.results.Status.TheVariants.{NotTried};
ghost use Rattle.std.specs.Prelude.{◌≡◌, false};

use crate::output::Descriptor;
use std::fmt;
use std::fmt::Write;

// Answered; refused, or found to differ; not tried, or not told.
#[derive(Clone, Copy, PartialEq, Eq)]
pub enum Status {
    Answered,
    Refused,
    NotTried,
}

impl Status {
    // As the system's programs tell it.
    fn number(self) -> u8
        ensures { result ≡ number_of_status self }
    {
        match self {
            Status::Answered => 0,
            Status::Refused => 1,
            Status::NotTried => 2,
        }
    }
}

// replaced: whether a file was.
#[derive(Clone, Copy)]
pub struct Outcome {
    pub status: Status,
    pub replaced: bool,
}

impl fmt::Display for Outcome {
    fn fmt<W: fmt::Write>(&self, f: &mut fmt::Formatter<W>) -> fmt::Result {
        let number = self.status.number();
        write!(f, "{number}")?;
        if self.replaced {
            write!(f, " replaced")?;
        }
        Ok(())
    }
}

// A call that could not be tried; why was told when it was found.
#[derive(Clone, Copy, PartialEq, Eq)]
pub struct Failure;

pub type Tried<T> = Result<T, Failure>;

pub fn not_tried() -> Outcome
    ensures { (result.status ≡ NotTried) × (result.replaced ≡ false) }
{
    Outcome {
        status: Status::NotTried,
        replaced: false,
    }
}

// written: whether all of the answer was. Where it was not, that is told, and the answer counts for nothing.
pub fn answered(
    status: Status,
    replaced: bool,
    written: fmt::Result,
    mut err: Descriptor,
) -> Outcome
    ensures { (result.status ≡ status_by written status) × (result.replaced ≡ replaced) }
{
    if written.is_ok() {
        return Outcome { status, replaced };
    }
    let _ = writeln!(err, "ninhalto: the answer could not be written");
    Outcome {
        status: Status::NotTried,
        replaced,
    }
}

// As a line: the status, with `replaced` after it where a file was.
pub fn tell(mut to: Descriptor, outcome: Outcome) {
    let _ = writeln!(to, "{outcome}");
}
