// The files in the folder that the program runs in.
ghost use Rattle.io.specs.Counts.{IsPrefixLen};

use calls::output::Descriptor;
use calls::{STDERR_FILENO, STDOUT_FILENO, errors, files};
use std::fs;
use std::fs::OpenOptions;
use std::io::Write;
use std::rt::Files;

pub fn load(rt: &impl Files, path: &[u8], buf: &mut [u8; 65536]) -> usize
    ensures { IsPrefixLen result buf.new }
{
    files::load(rt, path, Descriptor(STDOUT_FILENO), buf).unwrap_or(0)
}

fn write(rt: &impl Files, path: &[u8], bytes: &[u8]) {
    if let Ok(text) = std::str::from_utf8(path) {
        if let Err(why) = fs::write(rt, text, bytes) {
            errors::failed(Descriptor(STDERR_FILENO), path, why);
        }
    }
}

// A file to which bytes are appended.
pub fn open_append<R: Files>(rt: &R, path: &str) -> Option<R::File> {
    OpenOptions::new().append(true).open(rt, path).ok()
}

// A copy of one file, at another path.
pub fn put(rt: &impl Files, from: &[u8], to: &[u8]) {
    let mut buf = io::large_buffer();
    let n = load(rt, from, &mut buf);
    write(rt, to, &buf[..n]);
}

// Two files have the same bytes.
pub fn alike(rt: &impl Files, a: &[u8], b: &[u8]) -> bool {
    let mut one = io::large_buffer();
    let mut two = io::large_buffer();
    let n = load(rt, a, &mut one);
    let m = load(rt, b, &mut two);
    check::same(&one[..n], &two[..m])
}

// The one has the bytes of the other, and two more.
fn longer(one: &[u8], two: &[u8]) -> bool {
    if one.len() < 2 {
        return false;
    }
    let n = one.len() - 2;
    check::same(&one[0..n], two)
}

// So it is with two files.
pub fn is_timed(rt: &impl Files, a: &[u8], b: &[u8]) -> bool {
    let mut one = io::large_buffer();
    let mut two = io::large_buffer();
    let n = load(rt, a, &mut one);
    let m = load(rt, b, &mut two);
    longer(&one[..n], &two[..m])
}

// Whether the file at the path is the one that is open, to which bytes are appended: it has one byte more then.
pub fn is_at<R: Files>(rt: &R, path: &[u8], was: Option<R::File>) -> bool {
    let mut buf = io::large_buffer();
    let n = load(rt, path, &mut buf);
    if let Some(mut file) = was {
        let _ = file.write_all(b"+");
    }
    let m = load(rt, path, &mut buf);
    n != m
}
