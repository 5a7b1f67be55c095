// Runs the salvage on the cases of salvages.bin and compares its answers, and the outputs that it leaves, with those that stand there, which another
// implementation gave. The format is in reference/FORMAT.md, "Salvages".
#![tactic(auto)]

mod case;

use cases::program::{CaseFile, Cases};
use cases::{program, reading, told};

// The file, which is that of the case before where a case says so, and its size. How often each answer was wanted.
#[derive(Drop)]
struct Salvages {
    file: [u8; 65536],
    size: usize,
    met: [usize; 18],
}

impl Cases for Salvages {
    fn next(&mut self, fd: i32) -> bool {
        self.size = reading::file_field(fd, &mut self.file, self.size);
        let c = case::next(fd, &self.file, self.size);
        told::one_more(&mut self.met, c.number);
        c.agrees
    }

    fn tell(&self) {
        told::line(b"done, END found", self.met[0]);
        told::line(b"done, END added", self.met[17]);
        told::line(b"refusal 1", self.met[1]);
        told::line(b"refusal 16", self.met[16]);
    }
}

fn main(rt: HostRuntime) -> std::io::Result<()> {
    let mut salvages = Salvages {
        file: io::large_buffer(),
        size: 0,
        met: [0; 18],
    };
    let file = CaseFile {
        name: "salvages.bin",
        kind: 12,
        one: b"salvage",
        all: b"salvages",
    };
    program::run(&rt, file, &mut salvages)
}
