// Of a scan, a trial and the demo all but the scans: the files are read, a program is moved in a copy, and what comes of it is told. `out` is the
// descriptor for the answer, `err` for what a refusal means and what could not be tried.
#![tactic(auto)]

mod changes;
mod mixer;
pub mod scans;
pub mod shown;
pub mod trials;
