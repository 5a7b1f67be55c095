// The program file: numbers, operands and records read from the lent bytes, the frame (refusal 1), and a trailer to be written.
#![tactic(auto)]

ghost use Rattle.std.specs.Prelude.{◌+◌, ◌*◌, ◌-◌, ◌<◌, ◌≤◌, ◌^◌, eqb, leb, length, ◌&&◌, ◌≡◌};
ghost use Rattle.ec20.specs.File.{u16_at, u32_at, frame_of, operand_at, record_from};
ghost use Rattle.ec20.specs.Written.{trailer_of};
ghost use Rattle.records.specs.Ranges.{Small, SmallRec, Fits};

use ec20::{Frame, Operand, Rec};

pub fn wide(b: u8) -> usize
    ensures { (result ≡ b) × (result < 256) }
{
    usize::from(b)
}

// Two bytes and four bytes as a number, the lowest first.
pub fn u16_at(f: &[u8], i: usize) -> usize
    requires { i + 2 ≤ length f.now }
    ensures { (result ≡ u16_at f.now i) × (result < 65536) }
{
    wide(f[i]) + wide(f[i + 1]) * 256
}

pub fn u32_at(f: &[u8], i: usize) -> usize
    requires { i + 4 ≤ length f.now }
    ensures { (result ≡ u32_at f.now i) × (result < 2 ^ 32) }
{
    wide(f[i]) + wide(f[i + 1]) * 256 + wide(f[i + 2]) * 65536 + wide(f[i + 3]) * 16777216
}

// The operand of six bytes at byte i.
pub fn operand_at(f: &[u8], i: usize) -> Operand
    requires { i + 6 ≤ length f.now }
    ensures { (result ≡ operand_at f.now i) × Small result }
{
    let kind = wide(f[i]);
    let group = wide(f[i + 1]);
    let value = u32_at(f, i + 2);
    Operand { kind, group, value }
}

// The record of twenty bytes at byte i.
pub fn record_from(f: &[u8], i: usize) -> Rec
    requires { i + 20 ≤ length f.now }
    ensures { (result ≡ record_from f.now i) × SmallRec result }
{
    let number = wide(f[i]);
    let spare = wide(f[i + 1]);
    let first = operand_at(f, i + 2);
    let second = operand_at(f, i + 8);
    let third = operand_at(f, i + 14);
    Rec {
        number,
        spare,
        first,
        second,
        third,
    }
}

// What the trailer says fits a file of n bytes.
fn trailer_fits(n: usize, edition: usize, count: usize, distance: usize) -> bool
    requires { count < 65536 }
    ensures { result ≡ (eqb edition 1 && leb 1 count && leb count 2000 && eqb distance (20 * count + 8) && leb distance n && leb (n - distance) 4096) }
{
    (edition == 1)
        & (1 <= count)
        & (count <= 2000)
        & (distance == 20 * count + 8)
        & (distance <= n)
        & (n.saturating_sub(distance) <= 4096)
}

// The frame: where the first record begins, and how many there are.
pub fn frame(f: &[u8]) -> Option<Frame>
    ensures value { result ≡ frame_of f.now }
    ensures fits { Fits (length f.now) result }
{
    let n = f.len();
    if n < 8 {
        return None;
    }
    let edition = u16_at(f, n - 8);
    let count = u16_at(f, n - 6);
    let distance = u32_at(f, n - 4);
    if trailer_fits(n, edition, count, distance) {
        let first = n.saturating_sub(distance);
        return Some(Frame { first, count });
    }
    None
}

// The trailer of a file of so many records.
pub fn trailer(edition: usize, count: usize) -> [u8; 8]
    requires { count < 65536 }
    ensures { result ≡ trailer_of edition count }
{
    let distance = 20 * count + 8;
    [
        (edition % 256) as u8,
        (edition / 256 % 256) as u8,
        (count % 256) as u8,
        (count / 256 % 256) as u8,
        (distance % 256) as u8,
        (distance / 256 % 256) as u8,
        (distance / 65536 % 256) as u8,
        (distance / 16777216 % 256) as u8,
    ]
}
