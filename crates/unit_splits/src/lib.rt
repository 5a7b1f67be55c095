// Which declared block a program reaches over: the test of refusal 13, for a declaration.
#![tactic(auto)]

ghost use Rattle.units.specs.Splits.{split_in};
ghost use Rattle.std.specs.Prelude.{◌≡◌};

use ec20::{Frame, Refusal};
use units::Declaration;

// The first record of a program file that has an operand partly in the declared block; what is no program file has none.
pub fn split(file: &[u8], a: Declaration) -> Result<(), Refusal>
    ensures { result ≡ split_in file.now a }
{
    let Some(Frame { first, count }) = records::frame(file) else {
        return Ok(());
    };
    splits::first_split(file, first, count, a.start as usize, a.length as usize)
}
