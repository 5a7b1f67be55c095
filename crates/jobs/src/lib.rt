// Jobs: several blocks, each moved to a place that is named for it. What a job is, how it is spelt and what comes of it is defined in specs/. There is no
// code here.
#![tactic(auto)]

// Why a job is refused: a number with its record. 10 to 14 are also told at a line, which is `line` and `other`; and where two lines meet, `line` is the
// later of them and `other` the earlier.
#[derive(Clone, Copy, PartialEq, Eq)]
pub struct JobRefusal {
    pub number: usize,
    pub at: usize,
    pub line: usize,
    pub other: usize,
}

// A line of a job's text: the start and the length of its block, where its place begins, and the place after its line feed.
#[derive(Clone, Copy)]
pub struct JobLine {
    pub start: u64,
    pub length: u64,
    pub place: u64,
    pub next: usize,
}
