// The system's clock that only goes forward, and a pause. What the system answers may be anything: a number that is out of range counts as 0.
#![tactic(auto)]

ghost use Rattle.std.specs.Prelude.{◌≤◌};

use std::rt::Clock;
use std::thread;
use std::time::Duration;

// The clock's milliseconds; 0 where the system tells none. The seconds have a bound that a thousand times as many keeps within 64 bits.
pub fn milliseconds(rt: &impl Clock) -> u64 {
    let time = now(rt);
    let seconds = time.as_secs();
    let nanoseconds = u64::from(time.subsec_nanos());
    within(seconds, 18_000_000_000_000_000) * 1_000 + within(nanoseconds, 999_999_999) / 1_000_000
}

// Waits for about so many milliseconds, for at most 1,000 at a time.
pub fn pause(rt: &impl Clock, ms: u64) {
    short_wait(rt, at_most_a_second(ms));
}

// No wait is longer than a second.
fn short_wait(rt: &impl Clock, ms: u64)
    requires { ms ≤ 1000 }
{
    thread::sleep(rt, Duration::from_millis(ms));
}

fn at_most_a_second(ms: u64) -> u64
    ensures { result ≤ 1000 }
{
    ms.min(1_000)
}

// The number, where it is at most `most`; else 0.
fn within(n: u64, most: u64) -> u64
    ensures { result ≤ most }
{
    if n > most { 0 } else { n }
}

// The time of the clock; none, where the system tells none.
fn now(rt: &impl Clock) -> Duration {
    rt.monotonic().unwrap_or(Duration::ZERO)
}
