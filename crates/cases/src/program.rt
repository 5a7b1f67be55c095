// A program on a case file: each case of the file, how many agree, and what was met.
use crate::{reading, told};
use std::fs;
use std::fs::File;
use std::os::fd::AsRawFd;
use std::rt::Files;

// What came of a case: whether it agrees, and the number at which it is counted.
#[derive(Clone, Copy)]
pub struct Judged {
    pub agrees: bool,
    pub number: usize,
}

// What is known of the cases of a kind, from one to the next.
pub trait Cases {
    // The next case, which is counted: whether it agrees.
    fn next(&mut self, fd: i32) -> bool;

    // How often each answer was met.
    fn tell(&self);
}

// A case file: its name and the number of its kind; what one case is called, and what they all are.
#[derive(Clone, Copy)]
pub struct CaseFile<'a> {
    pub name: &'a str,
    pub kind: usize,
    pub one: &'a [u8],
    pub all: &'a [u8],
}

// The n cases.
fn section<C: Cases>(fd: i32, n: usize, f: CaseFile<'_>, cases: &mut C) {
    let mut differ: usize = 0;
    for i in 0..n {
        if !cases.next(fd) {
            told::differs(f.one, i, differ);
            differ += 1;
        }
    }
    told::total(f.all, n - differ, differ);
}

// Runs the cases of a file, and prints what came of them.
pub fn run<C: Cases>(
    rt: &(impl Files<File = File> + Eprint + Alloc),
    f: CaseFile<'_>,
    cases: &mut C,
) -> std::io::Result<()> {
    match fs::open(rt, f.name) {
        Ok(file) => {
            let fd = file.as_raw_fd();
            section(fd, reading::head(fd, f.kind), f, cases);
            cases.tell();
            told::ended(reading::at_end(fd));
            Ok(())
        }
        Err(e) => told::failed(rt, f.name, &e),
    }
}
