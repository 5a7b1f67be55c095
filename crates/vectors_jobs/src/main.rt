// Runs the job on the cases of jobs.bin and compares its answers, and the files and D tables that it leaves, with those that stand there, which another
// implementation gave. The format is in reference/FORMAT.md, "Jobs".
#![tactic(auto)]

mod case;

use cases::program::{CaseFile, Cases};
use cases::{program, reading, told};

// The file, which is that of the case before where a case says so, and its size. How often each answer was wanted, by its number, 0 for done, and at
// 17 how often two lines meet.
#[derive(Drop)]
struct Jobs {
    file: [u8; 65536],
    size: usize,
    met: [usize; 18],
}

impl Cases for Jobs {
    fn next(&mut self, fd: i32) -> bool {
        self.size = reading::file_field(fd, &mut self.file, self.size);
        let c = case::next(fd, &self.file, self.size);
        told::one_more(&mut self.met, c.number);
        told::one_more(&mut self.met, c.meeting);
        c.agrees
    }

    fn tell(&self) {
        told::line(b"done", self.met[0]);
        told::refusals(&self.met, 1, 16);
        told::line(b"two lines meet", self.met[17]);
    }
}

fn main(rt: HostRuntime) -> std::io::Result<()> {
    let mut jobs = Jobs {
        file: io::large_buffer(),
        size: 0,
        met: [0; 18],
    };
    let file = CaseFile {
        name: "jobs.bin",
        kind: 11,
        one: b"job",
        all: b"jobs",
    };
    program::run(&rt, file, &mut jobs)
}
