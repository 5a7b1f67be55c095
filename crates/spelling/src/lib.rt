// Numbers and declarations as they are spelt in a text. What is read is defined in the crate units, specs/Spelling.antt and specs/Text.antt.
#![tactic(auto)]

pub mod ended;

ghost use Rattle.std.specs.Prelude.{◌<◌, length, ◌≡◌};
ghost use Rattle.spelling.specs.Bounds.{NumberIn, LineIn};
ghost use Rattle.units.specs.Spelling.{byte_in, digit_of, number_at};
ghost use Rattle.units.specs.Text.{named, line_at};

use units::{Digits, Line};

// Byte i of a text, and 0 past its end.
pub fn byte_in(s: &[u8], i: usize) -> u8
    ensures { result ≡ byte_in s.now i }
{
    s.get(i).copied().unwrap_or(0)
}

// One digit more, if one stands there. A digit is no 0, so that it stands within the text, and the place after it is a number too.
fn digit(s: &[u8], d: Digits) -> Digits
    requires { d.value < 100000000000 }
    ensures { result ≡ digit_of s.now d }
{
    let b = byte_in(s, d.next);
    if !b.is_ascii_digit() {
        return d;
    }
    Digits {
        value: d.value * 10 + u64::from(b - b'0'),
        next: d.next + 1,
    }
}

// The number at a place of a text, `most` at most: of eleven digits at most, with no zero ahead.
pub fn number(s: &[u8], from: usize, most: u64) -> Option<Digits>
    ensures value { result ≡ number_at s.now from most }
    ensures number_in { NumberIn from most result }
{
    let mut d = Digits {
        value: 0,
        next: from,
    };
    for k in 0..11usize {
        d = digit(s, d);
    }
    let zero = byte_in(s, from) == b'0';
    if d.next == from || (zero && 1 < d.next - from) || most < d.value {
        return None;
    }
    Some(d)
}

// Whether a name stands at a place: eight bytes, none of them a line feed, and a blank.
fn name_at(s: &[u8], from: usize) -> bool
    ensures { result ≡ named s.now from }
{
    if s.len() <= from || s.len() - from <= 8 {
        return false;
    }
    for i in from..from + 8 {
        if s[i] == b'\n' {
            return false;
        }
    }
    s[from + 8] == b' '
}

// The declaration at a place of a text: name, blank, start, blank, length, line feed. Start and length are `most` at most.
pub fn line(s: &[u8], from: usize, most: u64) -> Option<Line>
    ensures value { result ≡ line_at s.now from most }
    ensures line_in { LineIn (length s.now) from most result }
{
    if !name_at(s, from) {
        return None;
    }
    let start = ended::part(s, from + 9, most, b' ')?;
    let length = ended::part(s, start.next, most, b'\n')?;
    Some(Line {
        start: start.value,
        length: length.value,
        next: length.next,
    })
}
