// A record as an instruction, and as what loops and jumps see of it.
#![tactic(auto)]

ghost use Rattle.std.specs.Prelude.{◌+◌, ◌*◌, ◌<◌, ◌≤◌, ◌^◌, length, ◌≡◌};
ghost use Rattle.ec20.specs.Code.{instr_by, instr_of, code_of};
ghost use Rattle.ec20.specs.Control.{control_of};
ghost use Rattle.ec20.specs.File.{records_from};
ghost use Rattle.ec20.specs.declared.Rec.{Rec};
ghost use Rattle.records.specs.Ranges.{Held};

use ec20::{Control, Form, Instr, Operand, Rec};
use instructions::RowTable;

// The instruction that a record makes by a form of the table.
#[tactic(auto, unfolding(ec20::specs::Code::instr_by))]
fn instr_by(form: Form, r: Rec) -> Instr
    ensures { result ≡ instr_by form r }
{
    let n = r.number;
    let first = r.first;
    let second = r.second;
    let third = r.third;
    let none = Operand {
        kind: 0,
        group: 0,
        value: 0,
    };
    match form {
        Form::Nop => Instr::Nop,
        Form::Contact => Instr::Contact(n, first),
        Form::Join => Instr::Join(n),
        Form::Branch => Instr::Branch(n),
        Form::Coil => Instr::Coil(n, first),
        Form::Compare => Instr::Compare(n, first, second),
        Form::Timer => Instr::Timer(first.value, second.value),
        Form::For => Instr::For(first.value),
        Form::Next => Instr::Next,
        Form::Jump => Instr::Jump(first.value),
        Form::Label => Instr::Label(first.value),
        Form::End => Instr::End,
        Form::Three => Instr::Word(n, first, second, third),
        Form::Two => Instr::Word(n, first, none, second),
        Form::One => Instr::Word(n, first, none, first),
    }
}

// The instruction of a record.
fn instr_of(rows: &RowTable, r: Rec) -> Instr
    ensures { result ≡ instr_of r }
{
    let form = rows.form_in(r.number);
    instr_by(form, r)
}

// The instruction of record k; past the last record there is END.
pub fn instr_at(rows: &RowTable, f: &[u8], first: usize, count: usize, k: usize) -> Instr
    requires held { Held (length f.now) first count }
    ensures { result ≡ code_of (records_from f.now first count) k }
{
    if k < count {
        return instr_of(rows, records::record_from(f, first + 20 * k));
    }
    Instr::End
}

// What loops and jumps see of a record: its number and its first value say it, and no row is looked up.
fn control_by(number: usize, value: usize) -> Control
    ensures { (r : Rec) → r.number ≡ number → r.first.value ≡ value → result ≡ control_of (instr_of r) }
{
    match number {
        19 => Control::Opens(value),
        20 => Control::Closes,
        21 => Control::Jumps(value),
        22 => Control::Marks(value),
        23 => Control::Ends,
        _ => Control::Plain,
    }
}

// What loops and jumps see of record k.
pub fn control_at(f: &[u8], first: usize, count: usize, k: usize) -> Control
    requires { Held (length f.now) first count }
    ensures { result ≡ control_of (code_of (records_from f.now first count) k) }
{
    if k < count {
        let i = first + 20 * k;
        return control_by(records::wide(f[i]), records::u32_at(f, i + 4));
    }
    Control::Ends
}
