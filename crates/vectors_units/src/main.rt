// Runs the functions on declarations of units on the cases of lists.bin, texts.bin and unitlists.bin and compares their answers, and the whole report
// of a list, with what stands there, which another implementation gave. The format is in reference/FORMAT.md, "Lists", "Texts" and "Unit lists".
#![tactic(auto)]

mod counts;
mod declarations;
mod lists;
mod reports;
mod spelt;
mod tables;
mod texts;

use cases::program::{CaseFile, Cases};
use cases::{program, told};
use std::fs::File;
use std::rt::Files;

// The number of the file's kind, and how often each answer and each sort of list was met.
#[derive(Drop)]
struct Units {
    kind: usize,
    met: [usize; 20],
}

impl Cases for Units {
    fn next(&mut self, fd: i32) -> bool {
        let c = match self.kind {
            8 => lists::next(fd),
            9 => texts::next(fd),
            _ => spelt::next(fd),
        };
        told::one_more(&mut self.met, c.answer);
        told::one_more(&mut self.met, c.list);
        c.agrees
    }

    fn tell(&self) {
        counts::tell(self.kind, &self.met);
    }
}

// The case file of a kind.
fn run(
    rt: &(impl Files<File = File> + Eprint + Alloc),
    name: &str,
    kind: usize,
    all: &[u8],
) -> std::io::Result<()> {
    let file = CaseFile {
        name,
        kind,
        one: all,
        all,
    };
    let mut units = Units { kind, met: [0; 20] };
    program::run(rt, file, &mut units)
}

fn main(rt: HostRuntime) -> std::io::Result<()> {
    run(&rt, "lists.bin", 8, b"lists")?;
    run(&rt, "texts.bin", 9, b"texts")?;
    run(&rt, "unitlists.bin", 10, b"unit lists")
}
