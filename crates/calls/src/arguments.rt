// The arguments of the program as the words of a call, each ended by a zero byte.
ghost use Rattle.std.specs.Prelude.{◌≡◌, ◌≤◌, IfSome, length};

use std::env::{Env, FillError};

// A word in the call from `at` on, where zeros are. Answers where the next one begins, past its zero byte; there is none where the call has no room.
fn add(call: &mut [u8], at: usize, word: &[u8]) -> Option<usize>
    requires { at ≤ length call.old }
    ensures same_length { length call.new ≡ length call.old }
    ensures in_bounds { IfSome result (λ next. next ≤ length call.old) }
{
    let n = word.len();
    if n >= call.len() - at {
        return None;
    }
    call[at..at + n].copy_from_slice(word);
    Some(at + n + 1)
}

// All but the program's own name, in a buffer of zeros. Answers how long the call is, if it fits.
pub fn gather(rt: &impl Env, call: &mut [u8]) -> Option<usize>
    ensures same_length { length call.new ≡ length call.old }
    ensures in_bounds { IfSome result (λ n. n ≤ length call.new) }
{
    let mut word = io::large_buffer();
    let mut n: usize = 0;
    for i in 1..usize::MAX {
        n = match rt.arg(i, &mut word) {
            Ok(length) => add(call, n, &word[..length])?,
            Err(FillError::TooLong) => return None,
            Err(FillError::NotPresent) => return Some(n),
        };
    }
    Some(n)
}
