// The use map: which of the 8,000 D words an accepted program reads, and which it writes, two maps of 1,000 bytes by value.
#![tactic(auto)]

ghost use Rattle.ec20.specs.Answers.{told_by_map};
ghost use Rattle.ec20.specs.Devices.{ec20};
ghost use Rattle.ec20.specs.File.{records_from};
ghost use Rattle.ec20.specs.Roles.{is_read, is_written};
ghost use Rattle.ec20.specs.UseMap.{holds, some_operand, use_map_of};
ghost use Rattle.marks.specs.Marked.{Widened};
ghost use Rattle.records.specs.Ranges.{Small, SmallRec, Held};
ghost use Rattle.usemap.specs.Maps.{read_by, written_by, maps_in};
ghost use Rattle.std.specs.Prelude.{length, ◌&&◌, true, ◌≡◌};

use ec20::{Frame, Operand, Place, Rec, Refusal, Role, Row, UseMap};
use instructions::RowTable;

// The extent there is read: a source, or a target that is also read.
fn is_read(p: Place) -> bool
    ensures { result ≡ is_read p }
{
    matches!(p.role, Role::Source | Role::Changed)
}

// The extent there is written: a target, one that is also read, or quotient and remainder.
fn is_written(p: Place) -> bool
    ensures { result ≡ is_written p }
{
    matches!(p.role, Role::Target | Role::Changed | Role::Quotient)
}

// The words that the operand's extent holds are marked, where it is used in the map's way.
fn mark_if(map: &mut [u8; 1000], used: bool, p: Place, o: Operand)
    requires { Small o }
    ensures { Widened ec20 (λ i. used && holds i p o) map.old map.new }
{
    if used {
        marks::mark_held(map, p, o);
    }
}

// The words that the record reads, by its row.
fn mark_read(map: &mut [u8; 1000], w: Row, r: Rec)
    requires { SmallRec r }
    ensures { Widened ec20 (λ i. some_operand (read_by i) w r) map.old map.new }
{
    mark_if(map, is_read(w.first), w.first, r.first);
    mark_if(map, is_read(w.second), w.second, r.second);
    mark_if(map, is_read(w.third), w.third, r.third);
}

// The words that the record writes, by its row.
fn mark_written(map: &mut [u8; 1000], w: Row, r: Rec)
    requires { SmallRec r }
    ensures { Widened ec20 (λ i. some_operand (written_by i) w r) map.old map.new }
{
    mark_if(map, is_written(w.first), w.first, r.first);
    mark_if(map, is_written(w.second), w.second, r.second);
    mark_if(map, is_written(w.third), w.third, r.third);
}

// The maps of `count` records from the byte `first` on, by the table.
fn map_by(rows: &RowTable, f: &[u8], first: usize, count: usize) -> UseMap
    requires held { Held (length f.now) first count }
    ensures { result ≡ maps_in (records_from f.now first count) }
{
    let mut read = [0u8; 1000];
    let mut written = [0u8; 1000];
    for k in 0..count {
        let r = records::record_from(f, first + 20 * k);
        let w = rows.row_in(r.number);
        mark_read(&mut read, w, r);
        mark_written(&mut written, w, r);
    }
    UseMap { read, written }
}

// The use map of a file; of one that the check refuses, the number and the record told. The table is made once and lent.
pub fn use_map(file: &[u8]) -> Result<UseMap, Refusal>
    ensures { result ≡ use_map_of file.now }
{
    let Frame { first, count } = checker::accept(file)?;
    let rows = instructions::table();
    Ok(map_by(&rows, file, first, count))
}

// What a host is told of a map: the number of the refusal (0: none) and the record told, and the two maps (all 0: refused).
#[derive(Clone, Copy)]
pub struct ToldMap {
    pub number: usize,
    pub at: usize,
    pub read: [u8; 1000],
    pub written: [u8; 1000],
}

// What is told of the answer that a file's use map is.
pub fn told(m: Result<UseMap, Refusal>) -> ToldMap
    ensures number_told { result.number ≡ (told_by_map ec20 m).number }
    ensures at_told { result.at ≡ (told_by_map ec20 m).at }
    ensures read_told { result.read ≡ (told_by_map ec20 m).read }
    ensures written_told { result.written ≡ (told_by_map ec20 m).written }
{
    match m {
        Ok(u) => {
            let read = u.read;
            let written = u.written;
            ToldMap {
                number: 0,
                at: 0,
                read,
                written,
            }
        }
        Err(r) => {
            let none = [0u8; 1000];
            ToldMap {
                number: r.number,
                at: r.at,
                read: none,
                written: none,
            }
        }
    }
}
