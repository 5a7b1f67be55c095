// How much of a table is lent to the scan: one of them in a wrong size, where a case says so.
ghost use Rattle.std.specs.Prelude.{◌≤◌, ◌≡◌};
ghost use Rattle.vectors_scans.specs.Wants.{wrong_size, lent_of};

use cases::octets::least;

// What a case asks: the table that is lent in a wrong size (0: none) and in which way, elapsed milliseconds, the budget, and whether the entry that
// takes no budget is called.
#[derive(Clone, Copy)]
pub struct Asked {
    pub table: u8,
    pub way: u8,
    pub elapsed: u32,
    pub budget: u32,
    pub plain: bool,
}

// Of a table of so many entries: one entry short, none, or one more.
fn wrong(way: u8, full: u16) -> usize
    ensures { result ≡ wrong_size way full }
{
    match way {
        0 => (full as usize).saturating_sub(1),
        1 => 0,
        _ => full as usize + 1,
    }
}

// How many of the `full` entries of a table are lent. Never more than most.
pub fn size(a: Asked, table: u8, full: u16, most: usize) -> usize
    ensures { (result ≡ lent_of a.table a.way table full most) × (result ≤ most) }
{
    if a.table == table {
        return least(wrong(a.way, full), most);
    }
    least(full as usize, most)
}
