// The types of the EC20 machine, and the one figure that several crates go by. What they mean, and what is done with them, is defined in
// specs/, one file for each section of the scope. There is no code here.
#![tactic(auto)]

// ---- the instruction table

// What an operand is for at its place. (specs/Roles.antt has what each allows.) Changed: a target that is also read; Units: those of a timer; Passes:
// those of a loop.
#[derive(Clone, Copy, PartialEq, Eq)]
pub enum Role {
    Unused,
    BitRead,
    BitWritten,
    Source,
    Target,
    Changed,
    Quotient,
    Timer,
    Units,
    Passes,
    Label,
}

// Which form of instruction a number makes. Three, Two and One are word instructions: of two sources and a target, of a source and a target, of a
// target that is also read.
#[derive(Clone, Copy, PartialEq, Eq)]
pub enum Form {
    Nop,
    Contact,
    Join,
    Branch,
    Coil,
    Compare,
    Timer,
    For,
    Next,
    Jump,
    Label,
    End,
    Three,
    Two,
    One,
}

// A place for an operand: its role, its width in bits, and how many D words it takes there.
#[derive(Clone, Copy)]
pub struct Place {
    pub role: Role,
    pub width: u8,
    pub extent: u8,
}

// The row of an instruction number: whether there is one, which form of instruction it makes, and the places of its operands.
#[derive(Clone, Copy)]
pub struct Row {
    pub known: bool,
    pub form: Form,
    pub first: Place,
    pub second: Place,
    pub third: Place,
}

// ---- the file

// The frame of a file: the byte at which the first record begins, and how many there are.
#[derive(Clone, Copy)]
pub struct Frame {
    pub first: usize,
    pub count: usize,
}

// Kinds: 0 none, 1 constant, 2 X, 3 Y, 4 M, 5 SM, 6 T, 7 D, 8 label. value: the four bytes, as an unsigned number.
#[derive(Clone, Copy)]
pub struct Operand {
    pub kind: usize,
    pub group: usize,
    pub value: usize,
}

// A record: instruction number, spare byte, three operands.
#[derive(Clone, Copy)]
pub struct Rec {
    pub number: usize,
    pub spare: usize,
    pub first: Operand,
    pub second: Operand,
    pub third: Operand,
}

// A record as an instruction. Contact, Compare, Join, Branch, Coil, Word: first the instruction's number, then its operands (Word: two
// sources, a target). Timer: the timer's number, its constant. For: the passes. Jump, Label: the label.
#[derive(Clone, Copy)]
pub enum Instr {
    Nop,
    Contact(usize, Operand),
    Compare(usize, Operand, Operand),
    Join(usize),
    Branch(usize),
    Coil(usize, Operand),
    Timer(usize, usize),
    For(usize),
    Next,
    Jump(usize),
    Label(usize),
    End,
    Word(usize, Operand, Operand, Operand),
}

// ---- the check

// A refusal: its number in the table of refusals, and the record that is told with it, 0 where none is.
#[derive(Clone, Copy, PartialEq, Eq)]
pub struct Refusal {
    pub number: usize,
    pub at: usize,
}

// What the rung rule keeps from record to record: whether flow is present, whether the last instruction other than NOP was an
// action, and how many entries each stack holds.
#[derive(Clone, Copy)]
pub struct Rung {
    pub present: bool,
    pub action: bool,
    pub blocks: usize,
    pub branches: usize,
}

// A record as loops and jumps see it: FOR with its passes, NEXT, CJ and LBL with their label, END, and all others.
#[derive(Clone, Copy)]
pub enum Control {
    Plain,
    Opens(usize),
    Closes,
    Jumps(usize),
    Marks(usize),
    Ends,
}

// How the code finds a label or a NEXT, 6 and W (specs/Walkers.antt). What a record does to a search: it is the one, it ends the body
// searched, or the search goes on so deep in loops inside it.
#[derive(Clone, Copy)]
pub enum Turn {
    Hit,
    Stop,
    On(usize),
}

// What a record asks of the walker of a sequence: to go on after so many steps, to enter a loop of so many passes, to leave one, to finish,
// to refuse.
#[derive(Clone, Copy)]
pub enum Act {
    Go(usize),
    Enter(usize),
    Leave,
    Finish,
    Refuse,
}

// The walker stopped before a record, after so many steps.
#[derive(Clone, Copy)]
pub struct Walk {
    pub next: usize,
    pub steps: usize,
}

// What the check tells of a program that it accepts. steps: W.
#[derive(Clone, Copy)]
pub struct Accepted {
    pub records: usize,
    pub steps: usize,
}

// ---- the run

// What a word instruction comes to: an error (0 for none); a value, and a second one if two is 1; and, if flags is 1, SM180, SM181
// and SM182. Each number of one bit is 0 or 1.
#[derive(Clone, Copy)]
pub struct Outcome {
    pub error: usize,
    pub value: i64,
    pub second: i64,
    pub two: usize,
    pub flags: usize,
    pub zero: usize,
    pub above: usize,
    pub below: usize,
}

// What a scan gives to its timers: so many whole units of 100 ms to those that count in them, of 10 ms, and of 1 ms.
#[derive(Clone, Copy)]
pub struct Units {
    pub hundreds: usize,
    pub tens: usize,
    pub ones: usize,
}

// What the running machine holds beside the tables. pc: the record due. flow: 0 absent, 1 off, 2 on. action: 1 if the last
// instruction other than NOP was an action. blocks, branches: the stacks, the top in the lowest bit. depth: the loops open. ended: 1
// after END. error, at: the first error and its record.
#[derive(Clone, Copy)]
pub struct Machine {
    pub pc: usize,
    pub flow: usize,
    pub action: usize,
    pub blocks: usize,
    pub branches: usize,
    pub depth: usize,
    pub ended: usize,
    pub error: usize,
    pub at: usize,
}

// stop: the record stopped at. error, at: the first error and its record, 0 and 0 if none.
#[derive(Clone, Copy)]
pub struct Report {
    pub steps: usize,
    pub stop: usize,
    pub error: usize,
    pub at: usize,
}

// How a scan that was made came to its end.
#[derive(Clone, Copy)]
pub enum Stop {
    Ended(Report),
    Watchdog(Report),
}

// The budget of a scan whose call names none: default_budget of specs/Scan.antt.
pub const DEFAULT_BUDGET: u32 = 200_000;

// ---- map

// One bit for each D word, packed eight to a byte.
#[derive(Clone, Copy)]
pub struct UseMap {
    pub read: [u8; 1000],
    pub written: [u8; 1000],
}
