// What the programs on case files share (reference/FORMAT.md): how a case file is read, memories made by rule, bytes copied and summed, what is
// counted and printed. What is computed is promised by the definitions of specs/. What is read from a file, and what is printed, no contract can say.
#![tactic(auto)]

pub mod drawing;
pub mod octets;
pub mod program;
pub mod reading;
pub mod told;
