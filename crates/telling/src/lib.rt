// What the command prints of programs and of D words: answers, refusals with their reason in words and the instruction's name, runs of D words and a
// picture of them all, and the bytes of a reply. What is computed for it is promised by the definitions of specs/: marks and runs, the picture's cells,
// the digits of a reply, the text of a name. What the system takes of what is written no contract can say.
#![tactic(auto)]

pub mod names;
pub mod picture;
pub mod replies;
pub mod report;
pub mod spans;
