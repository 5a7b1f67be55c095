// A call: its words, the numbers and files that they name, and what came of it. A file is read whole, or replaced. What a call's words, numbers and
// command are, and how it counts, is promised by the definitions of specs/; of a file, how much of a buffer it fills. What the system does with a file or
// a descriptor no contract can say: those functions are safe and end.
#![tactic(auto)]

// Standard output and standard error.
pub const STDOUT_FILENO: i32 = 1;

pub const STDERR_FILENO: i32 = 2;

pub mod arguments;
pub mod asked;
pub mod errors;
pub mod files;
pub mod names;
pub mod numbers;
pub mod output;
pub mod results;
pub mod text;
