// Runs the move on the cases of moves.bin and compares its answers, and the files that it leaves, with those that stand there, which another
// implementation gave. The format is in reference/FORMAT.md, "Moves".
#![tactic(auto)]

mod case;

use cases::program::{CaseFile, Cases};
use cases::{program, reading, told};

// The file, which is that of the case before where a case says so, and its size. How often each answer was wanted, by its number, 0 for moved.
#[derive(Drop)]
struct Moves {
    file: [u8; 65536],
    size: usize,
    met: [usize; 15],
}

impl Cases for Moves {
    fn next(&mut self, fd: i32) -> bool {
        self.size = reading::file_field(fd, &mut self.file, self.size);
        let c = case::next(fd, &self.file, self.size);
        told::one_more(&mut self.met, c.number);
        c.agrees
    }

    fn tell(&self) {
        told::line(b"moved", self.met[0]);
        told::refusals(&self.met, 1, 14);
    }
}

fn main(rt: HostRuntime) -> std::io::Result<()> {
    let mut moves = Moves {
        file: io::large_buffer(),
        size: 0,
        met: [0; 15],
    };
    let file = CaseFile {
        name: "moves.bin",
        kind: 4,
        one: b"move",
        all: b"moves",
    };
    program::run(&rt, file, &mut moves)
}
