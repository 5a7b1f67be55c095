// An operand's words in D: whether it names any, the first of them, and how many there are at its place. WORK, map, block, place and move ask
// here.
#![tactic(auto)]

ghost use Rattle.std.specs.Prelude.{◌<◌, ◌≤◌, ◌≡◌};
ghost use Rattle.ec20.specs.Operands.{in_d, start_of, extent_of};

use ec20::{Operand, Place};

// The operand names words in D.
#[tactic(auto, unfolding(ec20::specs::Operands::in_d))]
pub fn in_d(o: Operand) -> bool
    ensures { result ≡ in_d o }
{
    o.kind == 7
}

// The first of them.
#[tactic(auto, unfolding(ec20::specs::Operands::start_of))]
pub fn start(o: Operand) -> usize
    ensures value { result ≡ start_of o }
    ensures upper_bound { result ≤ o.value }
{
    o.value
}

// How many there are at this place.
#[tactic(auto, unfolding(ec20::specs::Operands::extent_of))]
pub fn length(p: Place, o: Operand) -> usize
    ensures value { result ≡ extent_of p o }
    ensures upper_bound { result < 256 }
{
    usize::from(p.extent)
}
