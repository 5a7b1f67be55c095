// Declarations of blocks by the units of a plant. What a clash is, what a report holds and how declarations are spelt is defined in specs/, one file for
// each part. There is no code here.
#![tactic(auto)]

// A unit's declaration of a block of D words, laid out as in C: 20 bytes.
#[repr(C)]
#[derive(Clone, Copy, PartialEq, Eq)]
pub struct Declaration {
    pub unit: u32,
    pub name: [u8; 8],
    pub start: u32,
    pub length: u32,
}

// Up to 64 declarations, by value.
#[derive(Clone, Copy)]
pub struct Table {
    pub at: [Declaration; 64],
}

// A number as far as it is read: its value, and the place after its digits.
#[derive(Clone, Copy)]
pub struct Digits {
    pub value: u64,
    pub next: usize,
}

// A declaration in a text: the start and the length of its block, and the place after its line feed.
#[derive(Clone, Copy)]
pub struct Line {
    pub start: u64,
    pub length: u64,
    pub next: usize,
}

// A line of a unit list: its unit, the place of its name, the start and the length of its block, and the place after its line feed.
#[derive(Clone, Copy)]
pub struct UnitLine {
    pub unit: u64,
    pub name: usize,
    pub start: u64,
    pub length: u64,
    pub next: usize,
}
