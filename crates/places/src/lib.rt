// The search of the lowest right place for a block, in one walk over the records and one over the words of the pool.
#![tactic(auto)]

ghost use Rattle.std.specs.Prelude.{◌+◌, ◌<◌, ◌≤◌, ◌^◌, length, ◌≡◌};
ghost use Rattle.ec20.specs.Devices.{ec20};
ghost use Rattle.ec20.specs.File.{records_from};
ghost use Rattle.ec20.specs.Move.{block, pool, place_of};
ghost use Rattle.ec20.specs.Operands.{first_bad};
ghost use Rattle.ec20.specs.UseMap.{holds, some_operand, some_record, map_of};
ghost use Rattle.ec20.specs.Judged.{Fine};
ghost use Rattle.marks.specs.Marked.{Widened};
ghost use Rattle.places.specs.Runs.{free, Lowest};
ghost use Rattle.records.specs.Ranges.{SmallRec, Held};

use ec20::{Rec, Row};

// The words that the record's operands hold, whatever their roles.
fn mark_all(map: &mut [u8; 1000], w: Row, r: Rec)
    requires { SmallRec r }
    ensures { Widened ec20 (λ i. some_operand (holds i) w r) map.old map.new }
{
    marks::mark_held(map, w.first, r.first);
    marks::mark_held(map, w.second, r.second);
    marks::mark_held(map, w.third, r.third);
}

// The words in use: those that an operand of some record holds.
fn used_words(f: &[u8], first: usize, count: usize) -> [u8; 1000]
    requires { Held (length f.now) first count }
    ensures { result ≡ map_of ec20 (λ i. some_record (holds i) (records_from f.now first count)) }
{
    let rows = instructions::table();
    let mut used = [0u8; 1000];
    for k in 0..count {
        let r = records::record_from(f, first + 20 * k);
        mark_all(&mut used, rows.row_in(r.number), r);
    }
    used
}

// Word i may be part of a place: not in WORK, not in the block, not in use.
#[tactic(auto, unfolding(crate::specs::Runs::free, ec20::specs::Devices::within))]
fn is_free(used: &[u8; 1000], start: usize, size: usize, i: usize) -> bool
    requires { start + size < 2 ^ 64 }
    ensures { result ≡ free ec20 used.now (block start size) i }
{
    (i < 7900) & !((start <= i) & (i < start + size)) & !marks::is_marked(used, i)
}

// The lowest start of `size` free words in a row in the pool.
fn lowest(used: &[u8; 1000], start: usize, size: usize, from: usize, end: usize) -> Option<usize>
    requires { (0 < size) × (start + size ≤ 8000) × (from ≤ end) × (end ≤ 8000) }
    ensures { Lowest (free ec20 used.now (block start size)) from end size result }
{
    let mut run = 0;
    for i in from..end {
        run = if is_free(used, start, size, i) {
            run + 1
        } else {
            0
        };
        if run == size {
            return Some(i + 1 - size);
        }
    }
    None
}

// The lowest right place for the block in the pool. The caller has judged 10 and 11, and the check found no record that 2, 3 or 4 refuses.
pub fn place(
    f: &[u8],
    first: usize,
    count: usize,
    start: usize,
    size: usize,
    from: usize,
    end: usize,
) -> Option<usize>
    requires held { Held (length f.now) first count }
    requires size_nonzero { (0 < size) × (start + size ≤ 8000) × (from ≤ end) × (end ≤ 8000) }
    requires count_value { first_bad ec20 (records_from f.now first count) ≡ Fine }
    ensures { result ≡ place_of ec20 (records_from f.now first count) (block start size) (pool from end) }
{
    let used = used_words(f, first, count);
    lowest(&used, start, size, from, end)
}
