// The 8,000 D words as a grid of 100 words to a row, with the gaps between them.
ghost use Rattle.std.specs.Prelude.{◌≡◌, ℕ, ◌+◌, ◌<◌, ◌≤◌, length};
ghost use Rattle.telling.specs.Picture.{sign_of, Row, free_rows};

use crate::spans;
use crate::spans::Run;
use calls::output::Descriptor;
use std::fmt;
use std::fmt::Write;

// The sign of word i. A word of WORK that is read is told as read.
fn sign(read: &[u8; 1000], written: &[u8; 1000], i: usize) -> u8
    ensures { result ≡ sign_of read.now written.now i }
{
    match spans::marks(read, written, i) {
        0 => { if i < 7900 { b'.' } else { b'#' } }
        1 => b'r',
        2 => b'w',
        _ => b'b',
    }
}

// The signs of the 100 words from `first` on, a blank ahead of each ten, and the line's end.
fn fill(read: &[u8; 1000], written: &[u8; 1000], first: usize, to: &mut [u8; 111])
    requires { (first < 8000) × (length to.old ≡ 111) }
    ensures { Row (λ (i : ℕ). sign_of read.now written.now (first + i)) to.old to.new }
{
    for i in 0..100 {
        to[i + i / 10 + 1] = sign(read, written, first + i);
    }
    to[110] = b'\n';
}

// The first word ahead of its row, in a column of six.
fn row(mut out: Descriptor, read: &[u8; 1000], written: &[u8; 1000], first: usize) -> fmt::Result
    requires { first < 8000 }
{
    let mut text = [b' '; 111];
    fill(read, written, first, &mut text);
    write!(out, "D{first:<5}")?;
    out.put(&text)
}

// Where the free rows from the row of `first` on end: that row itself where it is not free. WORK is shown.
fn free_rows(read: &[u8; 1000], written: &[u8; 1000], first: usize) -> usize
    requires { first < 8000 }
    ensures { (result ≡ free_rows read.now written.now first) × (result ≤ 8000) }
{
    if spans::marks(read, written, first) != 0 {
        return first;
    }
    let end = spans::run_end(read, written, first, 0);
    if end > 7900 {
        return 7900;
    }
    end - end % 100
}

// A row for each hundred words, or one line for all rows that are free from there on.
pub fn show(mut out: Descriptor, read: &[u8; 1000], written: &[u8; 1000]) -> fmt::Result {
    write!(
        out,
        ". free   r read   w written   b read and written   # WORK, free
       +0         +10        +20        +30        +40        +50        +60        +70        +80        +90
"
    )?;
    let mut first = 0;
    while first < 8000 {
        let end = free_rows(read, written, first);
        if first < end {
            let run = Run {
                first,
                length: end - first,
            };
            writeln!(out, "{run} free")?;
            first = end;
            continue;
        }
        row(out, read, written, first)?;
        first += 100;
    }
    Ok(())
}
