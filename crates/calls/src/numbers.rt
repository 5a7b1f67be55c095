// Numbers in a call.
ghost use Rattle.std.specs.Prelude.{◌≡◌, ◌↔◌, ◌-◌, IsOk, IfOk, IsTrue};
ghost use Rattle.std.specs.Option.{SomeIff};
ghost use Rattle.calls.specs.BlockAndPool.{IsBlockAndPool};
ghost use Rattle.calls.specs.Numbers.{is_digit, is_number, number_of, number_in, all_numbers};
ghost use Rattle.calls.specs.Text.{word_of};

use crate::output::Descriptor;
use crate::results::{Failure, Tried};
use crate::text;
use std::fmt::Write;

// What a digit stands for.
fn digit(byte: u8) -> Option<u32>
    ensures { SomeIff result (IsTrue (is_digit byte)) (byte - 48) }
{
    match byte {
        b'0'..=b'9' => Some(u32::from(byte - b'0')),
        _ => None,
    }
}

// What one decimal digit or more, and nothing else, stands for, where it fits.
pub fn parsed(text: &[u8]) -> Option<u32>
    ensures { result ≡ number_in text.now }
{
    if text.is_empty() {
        return None;
    }
    let mut n: u32 = 0;
    for &byte in text {
        n = n.checked_mul(10)?.checked_add(digit(byte)?)?;
    }
    Some(n)
}

// The unsigned 32-bit number that word i is. What is none is told, with the name that the usage gives it.
pub fn word(call: &[u8], i: usize, name: &str, mut err: Descriptor) -> Tried<u32>
    ensures some { IsOk result ↔ IsTrue (is_number (word_of call.now i)) }
    ensures value { IfOk result (λ n. n ≡ number_of (word_of call.now i)) }
{
    if let Some(n) = parsed(text::word(call, i)) {
        return Ok(n);
    }
    let _ = writeln!(err, "{name}: no number from 0 to 4294967295");
    Err(Failure)
}

// A block of D words and the pool in which it looks for a place.
#[derive(Clone, Copy)]
pub struct Asked {
    pub start: u32,
    pub length: u32,
    pub pool_start: u32,
    pub pool_end: u32,
}

// The words 2 to 5 of a call.
pub fn block_and_pool(call: &[u8], err: Descriptor) -> Tried<Asked>
    ensures some { IsOk result ↔ IsTrue (all_numbers call.now) }
    ensures value { IfOk result (λ a. IsBlockAndPool call.now a) }
{
    Ok(Asked {
        start: word(call, 2, "START", err)?,
        length: word(call, 3, "LENGTH", err)?,
        pool_start: word(call, 4, "POOLSTART", err)?,
        pool_end: word(call, 5, "POOLEND", err)?,
    })
}
