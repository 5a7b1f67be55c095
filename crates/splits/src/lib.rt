// Refusal 13: the first record with an operand whose extent is partly in the block.
#![tactic(auto)]

ghost use Rattle.std.specs.Prelude.{◌<◌, ◌^◌, length, ◌≡◌};
ghost use Rattle.ec20.specs.File.{records_from};
ghost use Rattle.ec20.specs.Move.{block, split_fault};
ghost use Rattle.ec20.specs.Move.{touches as touchesOf, partly as partlyOf};
ghost use Rattle.ec20.specs.UseMap.{record_has};
ghost use Rattle.records.specs.Ranges.{Small, SmallRec, Held};

use ec20::{Operand, Place, Rec, Refusal};
use instructions::RowTable;

// The operand's extent in D meets the n words from `start` on.
#[tactic(auto, unfolding(ec20::specs::Move::touches))]
fn touches(start: usize, n: usize, p: Place, o: Operand) -> bool
    requires { (start < 2 ^ 32) × (n < 2 ^ 32) × Small o }
    ensures { result ≡ touchesOf (block start n) p o }
{
    extents::in_d(o) & blocks::meets(extents::start(o), extents::length(p, o), start, n)
}

// It meets them, and is not inside them.
#[tactic(auto, unfolding(ec20::specs::Move::partly))]
fn partly(start: usize, n: usize, p: Place, o: Operand) -> bool
    requires { (start < 2 ^ 32) × (n < 2 ^ 32) × Small o }
    ensures { result ≡ partlyOf (block start n) p o }
{
    touches(start, n, p, o) & !blocks::inside(extents::start(o), extents::length(p, o), start, n)
}

// One of the record's operands does.
#[tactic(auto, unfolding(ec20::specs::UseMap::some_operand))]
fn is_split(rows: &RowTable, start: usize, n: usize, r: Rec) -> bool
    requires start_bound { (start < 2 ^ 32) × (n < 2 ^ 32) × SmallRec r }
    ensures { result ≡ record_has (partlyOf (block start n)) r }
{
    let w = rows.row_in(r.number);
    partly(start, n, w.first, r.first)
        | partly(start, n, w.second, r.second)
        | partly(start, n, w.third, r.third)
}

// The first of the records that the block splits.
pub fn first_split(
    f: &[u8],
    first: usize,
    count: usize,
    start: usize,
    n: usize,
) -> Result<(), Refusal>
    requires { Held (length f.now) first count × (start < 2 ^ 32) × (n < 2 ^ 32) }
    ensures { result ≡ split_fault (records_from f.now first count) (block start n) }
{
    let rows = instructions::table();
    for k in 0..count {
        if is_split(&rows, start, n, records::record_from(f, first + 20 * k)) {
            return Err(Refusal { number: 13, at: k });
        }
    }
    Ok(())
}
