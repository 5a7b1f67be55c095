// A unit list as text, read whole: a line for each declaration. What is read is defined in the crate units, specs/Listed.antt.
#![tactic(auto)]

ghost use Rattle.std.specs.Prelude.{◌+◌, ◌<◌, ◌≤◌, length, take, drop, [], ◌≡◌};
ghost use Rattle.unit_texts.specs.Held.{table_of, put_of, UnitIn, held_of};
ghost use Rattle.units.specs.Listed.{declaration, unit_at, units_of};

use ec20::Refusal;
use units::{Declaration, Table, UnitLine};

// What a unit list has: the first line that is misspelt, if any is (15), how many declarations stand ahead of it, and the first 64 of them. Every other
// entry of the table is all zeros.
#[derive(Clone, Copy)]
pub struct Units {
    pub fault: Result<(), Refusal>,
    pub count: usize,
    pub table: Table,
}

// A table with nothing in it.
fn empty() -> Table
    ensures { result ≡ table_of [] }
{
    let d = Declaration {
        unit: 0,
        name: [0; 8],
        start: 0,
        length: 0,
    };
    let at = [d; 64];
    Table { at }
}

// A declaration is put at a place of the table, and left out past its 64 places.
fn put(t: &mut Table, i: usize, d: Declaration)
    ensures { t.new ≡ put_of t.old i d }
{
    if i < 64 {
        t.at[i] = d;
    }
}

// The eight bytes from a place on.
fn name_at(s: &[u8], p: usize) -> [u8; 8]
    requires { p + 8 ≤ length s.now }
    ensures { result ≡ take 8 (drop p s.now) }
{
    let mut name = [0; 8];
    name.copy_from_slice(&s[p..p + 8]);
    name
}

// The declaration of a line.
fn declared(s: &[u8], line: UnitLine) -> Declaration
    requires { (line.unit ≤ 65535) × (line.name + 8 ≤ length s.now) × (line.start ≤ 4294967295) × (line.length ≤ 4294967295) }
    ensures { result ≡ declaration s.now line.unit line.name line.start line.length }
{
    Declaration {
        unit: line.unit as u32,
        name: name_at(s, line.name),
        start: line.start as u32,
        length: line.length as u32,
    }
}

// The line that begins at a place: unit, blank, and a declaration.
fn unit_line(s: &[u8], from: usize) -> Option<UnitLine>
    ensures value { result ≡ unit_at s.now from }
    ensures unit_in { UnitIn (length s.now) from result }
{
    let unit = spelling::ended::part(s, from, 65535, b' ')?;
    let line = spelling::line(s, unit.next, 4294967295)?;
    Some(UnitLine {
        unit: unit.value,
        name: unit.next,
        start: line.start,
        length: line.length,
        next: line.next,
    })
}

// A whole unit list. Past 64 declarations the count goes on, and the table keeps the first 64.
pub fn read(s: &[u8]) -> Units
    ensures { result ≡ held_of (units_of s.now) }
{
    let mut table = empty();
    let mut count: usize = 0;
    let mut from: usize = 0;
    while from < s.len() {
        let Some(line) = unit_line(s, from) else {
            return Units {
                fault: Err(Refusal {
                    number: 15,
                    at: count,
                }),
                count,
                table,
            };
        };
        put(&mut table, count, declared(s, line));
        count += 1;
        from = line.next;
    }
    Units {
        fault: Ok(()),
        count,
        table,
    }
}
