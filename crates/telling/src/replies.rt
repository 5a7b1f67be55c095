// The bytes of a reply, each as two hexadecimal digits with a blank ahead.
ghost use Rattle.std.specs.Prelude.{◌≡◌, ◌+◌, ◌*◌, ◌/◌, ◌%◌, ◌<◌, ◌≤◌, length, slice_set};
ghost use Rattle.telling.specs.Spelt.{hex_digit, Spelt};

use calls::output::Descriptor;
use std::fmt;
use std::fmt::Write;

fn digit(v: u8) -> u8
    requires { v < 16 }
    ensures { result ≡ hex_digit v }
{
    if v < 10 { b'0' + v } else { b'a' + (v - 10) }
}

// Room for the 256 bytes that a reply may have.
fn blanks() -> [u8; 768]
    ensures { 768 ≡ length result }
{
    [b' '; 768]
}

fn put_byte(text: &mut [u8; 768], i: usize, b: u8)
    requires { i < 256 }
    ensures { text.new ≡ slice_set (slice_set text.old (3 * i + 1) (hex_digit (b / 16))) (3 * i + 2) (hex_digit (b % 16)) }
{
    text[3 * i + 1] = digit(b / 16);
    text[3 * i + 2] = digit(b % 16);
}

// The bytes of the reply.
fn fill(reply: &[u8], text: &mut [u8; 768])
    requires { (length reply.now ≤ 256) × (768 ≡ length text.old) }
    ensures { Spelt reply.now (length reply.now) text.old text.new }
{
    for i in 0..reply.len() {
        put_byte(text, i, reply[i]);
    }
}

// A line for the bytes of the reply, for the first 256 at most.
pub fn show(mut out: Descriptor, reply: &[u8]) -> fmt::Result {
    let n = reply.len().min(256);
    let mut text = blanks();
    fill(&reply[..n], &mut text);
    write!(out, "reply")?;
    out.put(&text[..3 * n])?;
    writeln!(out)
}
