// The leftovers of the timers, a table of two bytes: first the milliseconds that the 10 ms timers have not counted yet, then those of the 100 ms
// timers. Whether a table is one, and what a scan of so many milliseconds makes of it.
#![tactic(auto)]

ghost use Rattle.std.specs.Prelude.{◌≤◌, true, ◌≡◌};
ghost use Rattle.ec20.specs.Plant.{leftovers_fit, units_in, rest_after};
ghost use Rattle.ec20.specs.Timers.{Few};

use ec20::Units;

// "two leftovers, 0 to 9 ms and 0 to 99 ms".
pub fn fit(rest: &[u8]) -> bool
    ensures { result ≡ leftovers_fit rest.now }
{
    let [tens, hundreds] = rest else {
        return false;
    };
    *tens <= 9 && *hundreds <= 99
}

// "Whole units from leftover plus elapsed go to every timer of that base in that scan": those units, and in the table what is left over of each.
pub fn share(rest: &mut [u8], elapsed: usize) -> Units
    requires { (leftovers_fit rest.old ≡ true) × (elapsed ≤ 10000) }
    ensures value { result ≡ units_in elapsed rest.old }
    ensures rest_after { rest.new ≡ rest_after elapsed rest.old }
    ensures few { Few result }
{
    let tens = rest[0] as usize + elapsed;
    let hundreds = rest[1] as usize + elapsed;
    rest[0] = (tens % 10) as u8;
    rest[1] = (hundreds % 100) as u8;
    Units {
        hundreds: hundreds / 100,
        tens: tens / 10,
        ones: elapsed,
    }
}
