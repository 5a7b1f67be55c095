// The instruction table: one row for each instruction number, with the role, the width and the extent of each operand. Checker, scan, map
// and mover take these from here and from nowhere else.
#![tactic(auto)]

ghost use Rattle.std.specs.Prelude.{◌<◌, ◌≡◌};
ghost use Rattle.ec20.specs.Table.{table, row_of};

use ec20::{Form, Place, Role, Row};

// The places. A source, a target, and a target that is also read stand in one word of D or in two; a quotient has its remainder behind it.
const UNUSED: Place = Place {
    role: Role::Unused,
    width: 0,
    extent: 0,
};

const BIT_READ: Place = Place {
    role: Role::BitRead,
    width: 1,
    extent: 0,
};

const BIT_WRITTEN: Place = Place {
    role: Role::BitWritten,
    width: 1,
    extent: 0,
};

const SOURCE_16: Place = Place {
    role: Role::Source,
    width: 16,
    extent: 1,
};

const TARGET_16: Place = Place {
    role: Role::Target,
    width: 16,
    extent: 1,
};

const CHANGED_16: Place = Place {
    role: Role::Changed,
    width: 16,
    extent: 1,
};

const QUOTIENT_16: Place = Place {
    role: Role::Quotient,
    width: 16,
    extent: 2,
};

const SOURCE_32: Place = Place {
    role: Role::Source,
    width: 32,
    extent: 2,
};

const TARGET_32: Place = Place {
    role: Role::Target,
    width: 32,
    extent: 2,
};

const CHANGED_32: Place = Place {
    role: Role::Changed,
    width: 32,
    extent: 2,
};

const QUOTIENT_32: Place = Place {
    role: Role::Quotient,
    width: 32,
    extent: 4,
};

const TIMER_PLACE: Place = Place {
    role: Role::Timer,
    width: 16,
    extent: 0,
};

const UNITS_PLACE: Place = Place {
    role: Role::Units,
    width: 16,
    extent: 0,
};

const PASSES_PLACE: Place = Place {
    role: Role::Passes,
    width: 16,
    extent: 0,
};

const LABEL_PLACE: Place = Place {
    role: Role::Label,
    width: 0,
    extent: 0,
};

// The rows that the numbers have.
const NOP: Row = Row {
    known: true,
    form: Form::Nop,
    first: UNUSED,
    second: UNUSED,
    third: UNUSED,
};

const CONTACT: Row = Row {
    known: true,
    form: Form::Contact,
    first: BIT_READ,
    second: UNUSED,
    third: UNUSED,
};

const JOIN: Row = Row {
    known: true,
    form: Form::Join,
    first: UNUSED,
    second: UNUSED,
    third: UNUSED,
};

const BRANCH: Row = Row {
    known: true,
    form: Form::Branch,
    first: UNUSED,
    second: UNUSED,
    third: UNUSED,
};

const COIL: Row = Row {
    known: true,
    form: Form::Coil,
    first: BIT_WRITTEN,
    second: UNUSED,
    third: UNUSED,
};

const COMPARE: Row = Row {
    known: true,
    form: Form::Compare,
    first: SOURCE_16,
    second: SOURCE_16,
    third: UNUSED,
};

const TIMER: Row = Row {
    known: true,
    form: Form::Timer,
    first: TIMER_PLACE,
    second: UNITS_PLACE,
    third: UNUSED,
};

const FOR: Row = Row {
    known: true,
    form: Form::For,
    first: PASSES_PLACE,
    second: UNUSED,
    third: UNUSED,
};

const NEXT: Row = Row {
    known: true,
    form: Form::Next,
    first: UNUSED,
    second: UNUSED,
    third: UNUSED,
};

const JUMP: Row = Row {
    known: true,
    form: Form::Jump,
    first: LABEL_PLACE,
    second: UNUSED,
    third: UNUSED,
};

const LABEL: Row = Row {
    known: true,
    form: Form::Label,
    first: LABEL_PLACE,
    second: UNUSED,
    third: UNUSED,
};

const END: Row = Row {
    known: true,
    form: Form::End,
    first: UNUSED,
    second: UNUSED,
    third: UNUSED,
};

const TWO_16: Row = Row {
    known: true,
    form: Form::Two,
    first: SOURCE_16,
    second: TARGET_16,
    third: UNUSED,
};

const THREE_16: Row = Row {
    known: true,
    form: Form::Three,
    first: SOURCE_16,
    second: SOURCE_16,
    third: TARGET_16,
};

const DIVISION_16: Row = Row {
    known: true,
    form: Form::Three,
    first: SOURCE_16,
    second: SOURCE_16,
    third: QUOTIENT_16,
};

const ONE_16: Row = Row {
    known: true,
    form: Form::One,
    first: CHANGED_16,
    second: UNUSED,
    third: UNUSED,
};

const TWO_32: Row = Row {
    known: true,
    form: Form::Two,
    first: SOURCE_32,
    second: TARGET_32,
    third: UNUSED,
};

const THREE_32: Row = Row {
    known: true,
    form: Form::Three,
    first: SOURCE_32,
    second: SOURCE_32,
    third: TARGET_32,
};

const DIVISION_32: Row = Row {
    known: true,
    form: Form::Three,
    first: SOURCE_32,
    second: SOURCE_32,
    third: QUOTIENT_32,
};

const ONE_32: Row = Row {
    known: true,
    form: Form::One,
    first: CHANGED_32,
    second: UNUSED,
    third: UNUSED,
};

// No instruction.
const UNKNOWN: Row = Row {
    known: false,
    form: Form::Nop,
    first: UNUSED,
    second: UNUSED,
    third: UNUSED,
};

const TABLE: [Row; 56] = [
    NOP, // 0 NOP
    CONTACT, // 1 LD
    CONTACT, // 2 LDI
    CONTACT, // 3 AND
    CONTACT, // 4 ANI
    CONTACT, // 5 OR
    CONTACT, // 6 ORI
    JOIN, // 7 ANB
    JOIN, // 8 ORB
    BRANCH, // 9 MPS
    BRANCH, // 10 MRD
    BRANCH, // 11 MPP
    COIL, // 12 OUT
    COIL, // 13 SET
    COIL, // 14 RST
    COMPARE, // 15 LD=
    COMPARE, // 16 LD>
    COMPARE, // 17 LD<
    TIMER, // 18 TON
    FOR, // 19 FOR
    NEXT, // 20 NEXT
    JUMP, // 21 CJ
    LABEL, // 22 LBL
    END, // 23 END
    UNKNOWN, // 24
    UNKNOWN, // 25
    UNKNOWN, // 26
    UNKNOWN, // 27
    UNKNOWN, // 28
    UNKNOWN, // 29
    UNKNOWN, // 30
    UNKNOWN, // 31
    TWO_16, // 32 MOV
    THREE_16, // 33 ADD
    THREE_16, // 34 SUB
    DIVISION_16, // 35 DIV
    TWO_16, // 36 SQT
    ONE_16, // 37 INC
    ONE_16, // 38 DEC
    TWO_16, // 39 VABS
    TWO_16, // 40 NEG
    UNKNOWN, // 41
    UNKNOWN, // 42
    UNKNOWN, // 43
    UNKNOWN, // 44
    UNKNOWN, // 45
    UNKNOWN, // 46
    UNKNOWN, // 47
    TWO_32, // 48 DMOV
    THREE_32, // 49 DADD
    THREE_32, // 50 DSUB
    THREE_32, // 51 DMUL
    DIVISION_32, // 52 DDIV
    TWO_32, // 53 DSQT
    ONE_32, // 54 DINC
    ONE_32, // 55 DDEC
];

// The table, made once by whoever looks rows up and then lent: the compiler would else make it anew at each look-up.
#[derive(Clone, Copy)]
pub struct RowTable {
    rows: [Row; 56],
    pub ghost told: { rows ≡ table },
}

pub fn table() -> RowTable {
    RowTable { rows: TABLE }
}

impl RowTable {
    // The row of an instruction number; past the table, unknown.
    pub fn row_in(&self, n: usize) -> Row
        ensures { result ≡ row_of n }
    {
        if n < 56 { self.rows[n] } else { UNKNOWN }
    }

    // Of a row the form alone.
    pub fn form_in(&self, n: usize) -> Form
        ensures { result ≡ (row_of n).form }
    {
        if n < 56 { self.rows[n].form } else { Form::Nop }
    }

    // What a step of a scan asks of a row. The numbers of an accepted program are all in the table, so that no test stands here.

    // The form.
    pub fn form_at(&self, n: usize) -> Form
        requires { n < 56 }
        ensures { result ≡ (row_of n).form }
    {
        self.rows[n].form
    }

    // The width of the first operand in bits: of a word instruction and of a comparison the width of all its operands.
    pub fn width_at(&self, n: usize) -> u8
        requires { n < 56 }
        ensures { result ≡ (row_of n).first.width }
    {
        self.rows[n].first.width
    }

    // The D words of the third operand: of DIV and DDIV those of quotient and remainder together.
    pub fn third_at(&self, n: usize) -> u8
        requires { n < 56 }
        ensures { result ≡ (row_of n).third.extent }
    {
        self.rows[n].third.extent
    }
}
