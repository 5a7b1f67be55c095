// Torn files: of a program file whose trailer is torn off or scrambled, what is kept and what is written. It is defined in specs/. There is no code here.
#![tactic(auto)]

// Of the whole records of a torn file: how many are kept, and how many END records are added to them, 0 or 1.
#[derive(Clone, Copy)]
pub struct Kept {
    pub count: usize,
    pub added: usize,
}

// What is told of a salvage that is done: so many records kept, so many END records added, 0 or 1, and so many bytes of the input after those kept.
#[derive(Clone, Copy)]
pub struct Saved {
    pub kept: usize,
    pub added: usize,
    pub rest: usize,
}
