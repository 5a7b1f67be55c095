// Zeros for as much as a case lends at most, which tell their length beside them, so that no proof writes the zeros out; and the next text of a file.
ghost use Rattle.std.specs.Prelude.{◌≡◌, ◌≤◌, length};
ghost use Rattle.cases.specs.Filled.{entries};
ghost use Rattle.units.specs.Report.{pair};

use cases::octets::least;
use cases::reading;

pub fn report() -> [[u32; 2]; 2100]
    ensures { (2100 ≡ length result) × (result ≡ entries 2100 (pair 0 0)) }
{
    [[0; 2]; 2100]
}

// The next text of the file, whose length stands ahead of it. Answers the length. No text is longer than what is lent.
pub fn text(fd: i32, b: &mut [u8]) -> usize
    ensures { result ≤ length b.old }
{
    let n = least(reading::u32_from(fd), b.len());
    io::read_full(fd, &mut b[..n]);
    n
}
