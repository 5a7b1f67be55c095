// Runs the scan on the cases of scans.bin and compares its answers, and the memory that it leaves, with those that stand there, which
// another implementation gave. The format is in reference/FORMAT.md, "Scans".
#![tactic(auto)]

mod before;
mod case;
mod counts;
mod judge;
mod lent;
mod tables;
mod told;

use cases::program::{CaseFile, Cases};
use cases::{program, reading};

// The file, its size and the image, which are those of the case before where a case says so, and how often each kind of case was met.
#[derive(Drop)]
struct Scans {
    file: [u8; 65536],
    size: usize,
    image: [u8; 16892],
    met: [usize; 18],
}

impl Cases for Scans {
    fn next(&mut self, fd: i32) -> bool {
        self.size = reading::file_field(fd, &mut self.file, self.size);
        let c = case::next(fd, &self.file, self.size, &mut self.image);
        counts::add(&mut self.met, c.want, c.budget);
        c.agrees
    }

    fn tell(&self) {
        told::counts(&self.met);
    }
}

fn main(rt: HostRuntime) -> std::io::Result<()> {
    let mut scans = Scans {
        file: io::large_buffer(),
        size: 0,
        image: tables::image(),
        met: [0; 18],
    };
    let file = CaseFile {
        name: "scans.bin",
        kind: 3,
        one: b"scan",
        all: b"scans",
    };
    program::run(&rt, file, &mut scans)
}
