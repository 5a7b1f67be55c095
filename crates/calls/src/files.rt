// Files: reading one whole, and replacing one or two. A path is text: one that is no UTF-8 is told as one that cannot be read or written.
ghost use Rattle.std.specs.Prelude.{◌≡◌, ◌<◌, ◌≤◌, length, take, IfOk};
ghost use Rattle.io.specs.Counts.{IsPrefixLen};

use crate::errors;
use crate::output::Descriptor;
use crate::results::{Failure, Tried};
use std::fs;
use std::fs::{OpenFile, OpenOptions};
use std::io::{Error, ErrorKind, Read, Result, Write};
use std::os::unix::fs::OpenOptionsExt;
use std::random::RandomSource;
use std::rt::Files;

// How many bytes of a file stand at the start of the buffer, and how many of it stand behind them.
#[derive(Clone, Copy)]
pub struct Loaded {
    pub n: usize,
    pub more: usize,
}

// Which of two files could not be replaced.
#[derive(Clone, Copy, PartialEq, Eq)]
pub enum Unreplaced {
    Both,
    Second,
}

impl From<Failure> for Unreplaced {
    fn from(_failure: Failure) -> Unreplaced {
        Unreplaced::Both
    }
}

// So many names are tried for a new file.
const TRIES: u32 = 238328;

// The path as text.
fn text_of(path: &[u8]) -> Result<&str> {
    match std::str::from_utf8(path) {
        Ok(text) => Ok(text),
        Err(_) => Err(Error::from(ErrorKind::InvalidFilename)),
    }
}

// A file, for reading.
pub fn open_read<R: Files>(rt: &R, path: &[u8]) -> Result<R::File> {
    fs::open(rt, text_of(path)?)
}

fn open_update<R: Files>(rt: &R, path: &[u8]) -> Result<R::File> {
    let mut how = OpenOptions::new();
    how.read(true).write(true);
    how.open(rt, text_of(path)?)
}

// Reads until the buffer is full, the file ends or a read fails. Answers how many bytes stand at its start.
fn read_full(file: &mut impl Read, buf: &mut [u8]) -> usize
    ensures { IsPrefixLen result buf.new }
{
    let mut done = 0;
    while done < buf.len() {
        match file.read(&mut buf[done..]) {
            Ok(0) | Err(_) => break,
            Ok(n) => done += n,
        }
    }
    done
}

// Fewer bytes than the buffer holds come both where a file ends and where a read fails. One more read tells the two apart: it fails, or finds no byte at
// the end.
fn at_end(file: &mut impl Read) -> Result<()> {
    let mut one = [0u8; 1];
    match file.read(&mut one)? {
        0 => Ok(()),
        _ => Err(Error::from(ErrorKind::Other)),
    }
}

// The next bytes are read and forgotten. Answers how many there were, 0 at the end or where a read fails.
fn pass_over(file: &mut impl Read) -> usize {
    let mut passed = io::large_buffer();
    read_full(file, &mut passed)
}

// Reads on until the file ends or a read fails, and answers how many bytes there were. No file is so long that its turns end first.
fn read_on(file: &mut impl Read) -> usize {
    let mut more: usize = 0;
    for _turn in 0..u32::MAX {
        let n = pass_over(file);
        if n == 0 {
            break;
        }
        more = more.wrapping_add(n);
    }
    more
}

// What a full buffer does not hold is not looked at.
fn read_start(rt: &impl Files, path: &[u8], buf: &mut [u8; 65536]) -> Result<usize>
    ensures { IfOk result (λ n. IsPrefixLen n buf.new) }
{
    let mut file = open_read(rt, path)?;
    let n = read_full(&mut file, buf);
    if n < 65536 {
        at_end(&mut file)?;
    }
    Ok(n)
}

fn read_long(rt: &impl Files, path: &[u8], buf: &mut [u8; 65536]) -> Result<Loaded>
    ensures { IfOk result (λ loaded. IsPrefixLen loaded.n buf.new) }
{
    let mut file = open_read(rt, path)?;
    let n = read_full(&mut file, buf);
    let more = read_on(&mut file);
    at_end(&mut file)?;
    Ok(Loaded { n, more })
}

// The file at a path, or as much of it as the buffer holds: how many bytes stand at its start. Where it cannot be read, that is told.
pub fn load(rt: &impl Files, path: &[u8], err: Descriptor, buf: &mut [u8; 65536]) -> Tried<usize>
    ensures { IfOk result (λ n. IsPrefixLen n buf.new) }
{
    read_start(rt, path, buf).map_err(|why| errors::failed(err, path, why))
}

// The same of a file of any length, which is read to its end.
pub fn load_long(
    rt: &impl Files,
    path: &[u8],
    err: Descriptor,
    buf: &mut [u8; 65536],
) -> Tried<Loaded>
    ensures { IfOk result (λ loaded. IsPrefixLen loaded.n buf.new) }
{
    read_long(rt, path, buf).map_err(|why| errors::failed(err, path, why))
}

// A device, for reading and writing. Where it cannot be opened, that is told.
pub fn open<R: Files>(rt: &R, path: &[u8], err: Descriptor) -> Tried<R::File> {
    open_update(rt, path).map_err(|why| errors::failed(err, path, why))
}

// The new file is filled, and its bytes have reached their device.
fn fill<F: Write + OpenFile>(file: &mut F, bytes: &[u8]) -> Result<()> {
    file.write_all(bytes)?;
    file.sync_all()
}

// A letter of the 52, by a number.
fn letter(b: u8) -> u8 {
    let k = b % 52;
    if k < 26 { b'A' + k } else { b'a' + (k - 26) }
}

// The new name: the path, then a point and six letters. A path that is too long for that gets a name that is longer than any.
fn name_beside(path: &[u8], name: &mut [u8], drawn: [u8; 6]) {
    let n = path.len();
    if n > 4089 {
        name.fill(b'X');
        return;
    }
    if n + 7 > name.len() {
        return;
    }
    name[..n].copy_from_slice(path);
    name[n] = b'.';
    for k in 0..6 {
        name[n + 1 + k] = letter(drawn[k]);
    }
}

// A new file, which nobody else may read, under a name that no file has.
fn create_new<R: Files>(rt: &R, name: &[u8]) -> Result<R::File> {
    let mut how = OpenOptions::new();
    how.read(true).write(true).create_new(true).mode(0o600);
    how.open(rt, text_of(name)?)
}

// For the letters of a new name: what the system draws, or, where it draws none, the number of the try.
fn drawn(rt: &impl RandomSource, k: u32) -> [u8; 6] {
    let mut letters = [0u8; 6];
    if rt.fill_bytes(&mut letters).is_err() {
        return [
            0,
            0,
            0,
            (k / 2704 % 52) as u8,
            (k / 52 % 52) as u8,
            (k % 52) as u8,
        ];
    }
    letters
}

// The same under one of the names beside the path, of which so many are tried.
fn create_beside<R: Files + RandomSource>(rt: &R, path: &[u8], name: &mut [u8]) -> Result<R::File> {
    for k in 0..TRIES {
        name_beside(path, name, drawn(rt, k));
        match create_new(rt, name) {
            Err(why) if why.kind() == ErrorKind::AlreadyExists => {}
            done => return done,
        }
    }
    Err(Error::from(ErrorKind::AlreadyExists))
}

// A new file is made beside the path, under the name that it is given, and filled. Where that fails, why is told, and there is none.
fn make(
    rt: &(impl Files + RandomSource),
    path: &[u8],
    name: &mut [u8],
    bytes: &[u8],
    err: Descriptor,
) -> Tried<()> {
    let mut file = create_beside(rt, path, name).map_err(|why| errors::failed(err, path, why))?;
    let filled = fill(&mut file, bytes).map_err(|why| errors::failed(err, name, why));
    if filled.is_err() {
        remove(rt, name);
    }
    filled
}

// The file at the name is removed, if it can be.
fn remove(rt: &impl Files, name: &[u8]) {
    if let Ok(text) = text_of(name) {
        let _ = fs::remove_file(rt, text);
    }
}

fn rename(rt: &impl Files, name: &[u8], path: &[u8]) -> Result<()> {
    fs::rename(rt, text_of(name)?, text_of(path)?)
}

// It is renamed over the path: whoever opens that finds the old file or the new one, whole. Where that fails, the old file stays, the new one is removed
// and why is told.
fn put_over(rt: &impl Files, name: &[u8], path: &[u8], err: Descriptor) -> Tried<()> {
    let renamed = rename(rt, name, path).map_err(|why| errors::failed(err, path, why));
    if renamed.is_err() {
        remove(rt, name);
    }
    renamed
}

// How long the new name is, seven bytes more than the path: all of its buffer, which is no path, where that has no room.
fn size_beside(path: &[u8]) -> usize
    ensures { result ≤ 4096 }
{
    path.len().saturating_add(7).min(4096)
}

// The file at path, replaced.
pub fn replace(
    rt: &(impl Files + RandomSource),
    path: &[u8],
    bytes: &[u8],
    err: Descriptor,
) -> Tried<()> {
    let mut room = io::buffer();
    let name = &mut room[..size_beside(path)];
    make(rt, path, name, bytes, err)?;
    put_over(rt, name, path, err)
}

// The files at two paths, replaced: both new ones are made and filled before the first is renamed, so that what fails until then changes neither. The
// second alone is not replaced where it could not be renamed after the first. What is not put over its path is removed.
pub fn replace_two(
    rt: &(impl Files + RandomSource),
    path: &[u8],
    bytes: &[u8],
    path2: &[u8],
    bytes2: &[u8],
    err: Descriptor,
) -> std::result::Result<(), Unreplaced> {
    let mut room = io::buffer();
    let name = &mut room[..size_beside(path)];
    make(rt, path, name, bytes, err)?;
    let mut room2 = io::buffer();
    let name2 = &mut room2[..size_beside(path2)];
    if let Err(failure) = make(rt, path2, name2, bytes2, err) {
        remove(rt, name);
        return Err(Unreplaced::from(failure));
    }
    if let Err(failure) = put_over(rt, name, path, err) {
        remove(rt, name2);
        return Err(Unreplaced::from(failure));
    }
    match put_over(rt, name2, path2, err) {
        Ok(()) => Ok(()),
        Err(_) => Err(Unreplaced::Second),
    }
}

// How much of a text that was read is judged: all, or of one that fills the buffer its whole lines. A list of 64 lines at most fills none, so that such a
// text has more lines, or a misspelt one, and is refused in any case.
pub fn kept(text: &[u8]) -> &[u8]
    ensures no_longer { length result.now ≤ length text.now }
    ensures beginning { result.now ≡ take (length result.now) text.now }
    ensures short_whole { length text.now < 65536 → result.now ≡ text.now }
{
    if text.len() < 65536 {
        return text;
    }
    match text.iter().rposition(|&byte| byte == b'\n') {
        Some(last) => &text[..last + 1],
        None => text,
    }
}
