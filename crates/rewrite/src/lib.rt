// The moved file: each D number in the block is raised or lowered by the distance, in the bytes where the file is lent.
#![tactic(auto)]

ghost use Rattle.std.specs.Prelude.{◌+◌, ◌<◌, ◌≤◌, ◌^◌, length, ◌≡◌};
ghost use Rattle.ec20.specs.Basics.{list};
ghost use Rattle.ec20.specs.File.{operand_at};
ghost use Rattle.ec20.specs.Move.{block, moved_number, moved_byte};
ghost use Rattle.records.specs.Ranges.{Held};
ghost use Rattle.rewrite.specs.Numbers.{Below, with_u32};

// v in the four bytes at i, the lowest first.
fn put_u32(f: &mut [u8], i: usize, v: usize)
    requires { (i + 4 ≤ length f.old) × (v < 2 ^ 32) }
    ensures { f.new ≡ with_u32 f.old i v }
{
    f[i..i + 4].copy_from_slice(&(v as u32).to_le_bytes());
}

// The operand at byte i: its number, if its words in D begin in the block, goes along with the block.
fn move_operand(f: &mut [u8], i: usize, start: usize, n: usize, place: usize)
    requires { (i + 6 ≤ length f.old) × Below start n place }
    ensures { f.new ≡ with_u32 f.old (i + 2) (moved_number (block start n) place (operand_at f.old i)) }
{
    let o = records::operand_at(f, i);
    if extents::in_d(o) & blocks::within(start, n, extents::start(o)) {
        put_u32(f, i + 2, o.value - start + place);
    }
}

// The three operands of the record at byte i.
fn move_record(f: &mut [u8], i: usize, start: usize, n: usize, place: usize)
    requires { (i + 20 ≤ length f.old) × Below start n place }
    ensures { f.new ≡ list (length f.old) (moved_byte (block start n) place f.old i 1) }
{
    move_operand(f, i + 2, start, n, place);
    move_operand(f, i + 8, start, n, place);
    move_operand(f, i + 14, start, n, place);
}

// Each D number in the block, in `count` records from the byte `first` on, moved to the place.
pub fn move_numbers(f: &mut [u8], first: usize, count: usize, start: usize, n: usize, place: usize)
    requires { Held (length f.old) first count × Below start n place }
    ensures { f.new ≡ list (length f.old) (moved_byte (block start n) place f.old first count) }
{
    for k in 0..count {
        move_record(f, first + 20 * k, start, n, place);
    }
}
