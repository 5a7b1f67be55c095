// Moments are milliseconds of a clock. One that went back, or tells nothing, passes no time.
ghost use Rattle.std.specs.Prelude.{◌+◌, ◌-◌, min, ◌≡◌};

// How many milliseconds passed from one moment to another.
pub fn between(from: u64, to: u64) -> u64
    ensures { result ≡ to - from }
{
    to.saturating_sub(from)
}

// The milliseconds that passed, as many as a scan takes at most, and the moment up to which they are counted: what is left counts for the next scan.
#[derive(Clone, Copy)]
pub struct Passed {
    pub elapsed: u32,
    pub until: u64,
}

pub fn since(from: u64, to: u64) -> Passed
    ensures elapsed_value { result.elapsed ≡ min (to - from) 10000 }
    ensures until_value { result.until ≡ from + result.elapsed }
{
    let n = between(from, to).min(10000);
    Passed {
        elapsed: n as u32,
        until: from + n,
    }
}
