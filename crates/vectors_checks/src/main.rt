// Runs the checker on the files of checks.bin and compares its verdicts with those that stand there, which another implementation gave.
// The format is in reference/FORMAT.md, "Checks".
#![tactic(auto)]

mod case;

use cases::program::{CaseFile, Cases};
use cases::{program, told};

// How often each verdict was met: at its number if it is a refusal, at 0 if not.
#[derive(Drop)]
struct Checks {
    met: [usize; 9],
}

impl Cases for Checks {
    fn next(&mut self, fd: i32) -> bool {
        let c = case::next(fd);
        told::one_more(&mut self.met, c.number);
        c.agrees
    }

    fn tell(&self) {
        told::line(b"accepted", self.met[0]);
        told::refusals(&self.met, 1, 8);
    }
}

fn main(rt: HostRuntime) -> std::io::Result<()> {
    let mut checks = Checks { met: [0; 9] };
    let file = CaseFile {
        name: "checks.bin",
        kind: 2,
        one: b"check",
        all: b"checks",
    };
    program::run(&rt, file, &mut checks)
}
