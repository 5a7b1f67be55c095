// Ninhalto for a host program in C or Rust: the static library that `rt lib` writes here; include/ninhalto.h says it to C. A host lends
// the bytes of a file or a text, a list, the tables and the numbers to write, none of which overlap. Each function asks nothing more.
#![tactic(auto)]

mod answers;
mod check;
mod clash_lists;
mod exchanges;
mod job_lists;
mod longer_lines;
mod map;
mod moves;
mod salvages;
mod scan;
