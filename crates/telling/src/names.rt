// Records by their instruction's name.
ghost use Rattle.std.specs.Prelude.{◌≡◌, [], MatchOption};
ghost use Rattle.telling.specs.Named.{name_of};

use calls::output::Descriptor;
use std::fmt;
use std::fmt::Write;

// The name of an instruction, by its number.
#[tactic(auto, unfolding(crate::specs::Named::name_of))]
fn name(number: u8) -> Option<&'static str>
    ensures { MatchOption result (name_of number ≡ []) (λ name. name.now ≡ name_of number) }
{
    Some(match number {
        0 => "NOP",
        1 => "LD",
        2 => "LDI",
        3 => "AND",
        4 => "ANI",
        5 => "OR",
        6 => "ORI",
        7 => "ANB",
        8 => "ORB",
        9 => "MPS",
        10 => "MRD",
        11 => "MPP",
        12 => "OUT",
        13 => "SET",
        14 => "RST",
        15 => "LD=",
        16 => "LD>",
        17 => "LD<",
        18 => "TON",
        19 => "FOR",
        20 => "NEXT",
        21 => "CJ",
        22 => "LBL",
        23 => "END",
        32 => "MOV",
        33 => "ADD",
        34 => "SUB",
        35 => "DIV",
        36 => "SQT",
        37 => "INC",
        38 => "DEC",
        39 => "VABS",
        40 => "NEG",
        48 => "DMOV",
        49 => "DADD",
        50 => "DSUB",
        51 => "DMUL",
        52 => "DDIV",
        53 => "DSQT",
        54 => "DINC",
        55 => "DDEC",
        _ => return None,
    })
}

// The number of the instruction that a record has; none where the file has no such record.
fn number_at(file: &[u8], record: usize) -> Option<u8> {
    let frame = records::frame(file)?;
    let at = record.checked_mul(20)?.checked_add(frame.first)?;
    file.get(at).copied()
}

// " (DDIV)" for the record; nothing where the file has no such record.
pub fn say_name(mut to: Descriptor, file: &[u8], record: usize) -> fmt::Result {
    let Some(number) = number_at(file, record) else {
        return Ok(());
    };
    match name(number) {
        Some(name) => write!(to, " ({name})"),
        None => write!(to, " (number {number})"),
    }
}
