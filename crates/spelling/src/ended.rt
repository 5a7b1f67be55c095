// A number and the byte behind it, as a part of a line.
ghost use Rattle.std.specs.Prelude.{◌<◌, length, ◌≡◌};
ghost use Rattle.spelling.specs.Bounds.{PartIn};
ghost use Rattle.spelling.specs.Part.{part_at};

use units::Digits;

// The number at a place, and behind it the byte `end`, which is not 0. The place after both.
pub fn part(s: &[u8], from: usize, most: u64, end: u8) -> Option<Digits>
    requires { 0 < end }
    ensures value { result ≡ part_at s.now from most end }
    ensures part_in { PartIn (length s.now) from most result }
{
    let d = crate::number(s, from, most)?;
    if crate::byte_in(s, d.next) != end {
        return None;
    }
    Some(Digits {
        value: d.value,
        next: d.next + 1,
    })
}
