// What comes over a serial line: where a frame ends in the bytes that are held, and how the time passes. Nothing here reads or writes.
#![tactic(auto)]

pub mod held;
pub mod times;
