// Runs the exchange on the cases of exchanges.bin and compares its answers, and the words that it leaves, with those that stand there, which
// another implementation gave. The format is in reference/FORMAT.md, "Exchanges".
#![tactic(auto)]

mod case;

use cases::program::{CaseFile, Cases};
use cases::{program, told};

// How often each answer was wanted, by its number, 0 for exchanged.
#[derive(Drop)]
struct Exchanges {
    met: [usize; 15],
}

impl Cases for Exchanges {
    fn next(&mut self, fd: i32) -> bool {
        let c = case::next(fd);
        told::one_more(&mut self.met, c.number);
        c.agrees
    }

    fn tell(&self) {
        told::line(b"exchanged", self.met[0]);
        told::refusals(&self.met, 9, 14);
    }
}

fn main(rt: HostRuntime) -> std::io::Result<()> {
    let mut exchanges = Exchanges { met: [0; 15] };
    let file = CaseFile {
        name: "exchanges.bin",
        kind: 5,
        one: b"exchange",
        all: b"exchanges",
    };
    program::run(&rt, file, &mut exchanges)
}
