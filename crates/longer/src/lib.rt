// For the operator: of two lent declaration texts, the first line of the one that holds the longer block.
#![tactic(auto)]

ghost use Rattle.std.specs.Prelude.{◌≡◌};
ghost use Rattle.longer.specs.Told.{told_by_part, PartWithin};
ghost use Rattle.units.specs.Text.{longer_of, told_by_longer};

// Whose first line it is, and how many bytes it has.
#[derive(Clone, Copy, PartialEq, Eq)]
pub enum Part {
    First(usize),
    Second(usize),
}

// Which part is handed back: the first line of whichever text holds the longer block, the first text's if equal, and nothing if either is misspelt. It lies
// within its text.
pub fn which(a: &[u8], b: &[u8]) -> Option<Part>
    ensures text_value { told_by_part result ≡ told_by_longer a.now b.now }
    ensures size_in_bounds { PartWithin a.now b.now result }
{
    let one = spelling::line(a, 0, 8000)?;
    let two = spelling::line(b, 0, 8000)?;
    Some(if one.length < two.length {
        Part::Second(two.next)
    } else {
        Part::First(one.next)
    })
}

// That part, by lifetime.
pub fn longer<'a>(a: &'a [u8], b: &'a [u8]) -> &'a [u8]
    ensures { result.now ≡ longer_of a.now b.now }
{
    match which(a, b) {
        Some(Part::First(n)) => &a[..n],
        Some(Part::Second(n)) => &b[..n],
        None => &[],
    }
}
