// Runs the proved leaves on the cases of leaves.bin and compares what they give with the answers that stand there, which another
// implementation gave. The format is in reference/FORMAT.md, "Leaves".
#![tactic(auto)]

mod group;
mod leaf;
mod number;
mod outcome;

use cases::told::STDOUT_FILENO;
use cases::{reading, told};
use leaf::Case;
use std::fs;
use std::os::fd::AsRawFd;

// How many leaves the file says that there are; nothing where it has another head.
fn leaves(fd: i32) -> Option<usize> {
    let mut h = [0u8; 12];
    let got = io::read_full(fd, &mut h);
    let named = h.starts_with(b"NHV1");
    if named & (got == 12) & (records::u32_at(&h, 4) == 1) {
        return Some(records::u32_at(&h, 8));
    }
    None
}

// The number of groups, which stands between the two sections; nothing where the file ends before.
fn groups(fd: i32) -> Option<usize> {
    let mut h = [0u8; 4];
    if io::read_full(fd, &mut h) < 4 {
        return None;
    }
    Some(records::u32_at(&h, 0))
}

// The next case: of the leaves, or else of the groups.
fn next(fd: i32, leaves: bool) -> Case {
    if leaves {
        leaf::run(fd)
    } else {
        group::run(fd)
    }
}

fn say(text: &[u8]) {
    io::write_all(STDOUT_FILENO, text);
}

fn differs(leaves: bool, i: usize, others: usize) {
    if leaves {
        told::differs(b"leaf", i, others);
    } else {
        told::differs(b"group", i, others);
    }
}

fn total(leaves: bool, agree: usize, differ: usize) {
    if leaves {
        told::total(b"leaves", agree, differ);
    } else {
        told::total(b"groups", agree, differ);
    }
}

// The file ends in case i.
fn cut(leaves: bool, i: usize) {
    if leaves {
        say(b"the file ends in leaf ");
    } else {
        say(b"the file ends in group ");
    }
    io::print_decimal(STDOUT_FILENO, i as u64);
    say(b"\n");
}

// The n cases of a section. The answer is false where the file ends before the last.
fn section(fd: i32, leaves: bool, n: usize) -> bool {
    let mut differ: usize = 0;
    for i in 0..n {
        match next(fd, leaves) {
            Case::Agrees => {}
            Case::Differs => {
                differs(leaves, i, differ);
                differ += 1;
            }
            Case::Cut => {
                cut(leaves, i);
                return false;
            }
        }
    }
    total(leaves, n - differ, differ);
    true
}

fn second_section(fd: i32) {
    match groups(fd) {
        Some(n) => {
            if section(fd, false, n) {
                told::ended(reading::at_end(fd));
            }
        }
        None => cut(false, 0),
    }
}

fn run(fd: i32) {
    match leaves(fd) {
        Some(n) => {
            if section(fd, true, n) {
                second_section(fd);
            }
        }
        None => say(b"the file has another head\n"),
    }
}

fn main(rt: HostRuntime) -> std::io::Result<()> {
    let name = "leaves.bin";
    match fs::open(&rt, name) {
        Ok(file) => {
            let fd = file.as_raw_fd();
            run(fd);
            Ok(())
        }
        Err(e) => told::failed(&rt, name, &e),
    }
}
