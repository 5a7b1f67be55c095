// Runs of D words, and those of a map by their marks: a line for each longest run of words with the same marks.
ghost use Rattle.std.specs.Prelude.{◌≡◌, ◌<◌, ◌≤◌};
ghost use Rattle.telling.specs.Spans.{marks_of, run_end};

use calls::output::Descriptor;
use std::fmt;
use std::fmt::Write;

// D100-D109, or of one word D100.
#[derive(Clone, Copy)]
pub struct Run {
    pub first: usize,
    pub length: usize,
}

impl fmt::Display for Run {
    fn fmt<W: fmt::Write>(&self, f: &mut fmt::Formatter<W>) -> fmt::Result {
        let first = self.first;
        if self.length == 1 {
            return write!(f, "D{first}");
        }
        let last = first.wrapping_add(self.length).wrapping_sub(1);
        write!(f, "D{first}-D{last}")
    }
}

// 1 for a word that is read, and 2 more for one that is written.
pub fn marks(read: &[u8; 1000], written: &[u8; 1000], i: usize) -> usize
    ensures { result ≡ marks_of read.now written.now i }
{
    bits::bit_at(read, i) + 2 * bits::bit_at(written, i)
}

// The first word from i on, itself left out, with other marks than k; 8000 where there is none.
pub fn run_end(read: &[u8; 1000], written: &[u8; 1000], i: usize, k: usize) -> usize
    requires { i < 8000 }
    ensures { (result ≡ run_end read.now written.now i k) × (i < result) × (result ≤ 8000) }
{
    for end in i + 1..8000 {
        if marks(read, written, end) != k {
            return end;
        }
    }
    8000
}

// What the marks of a word that is not free say.
fn meaning(marks: usize) -> &'static str {
    match marks {
        1 => "read",
        2 => "written",
        _ => "read written",
    }
}

pub fn show(mut out: Descriptor, read: &[u8; 1000], written: &[u8; 1000]) -> fmt::Result {
    let mut first = 0;
    while first < 8000 {
        let marks = marks(read, written, first);
        let end = run_end(read, written, first, marks);
        if marks != 0 {
            let run = Run {
                first,
                length: end - first,
            };
            writeln!(out, "{run} {}", meaning(marks))?;
        }
        first = end;
    }
    Ok(())
}
