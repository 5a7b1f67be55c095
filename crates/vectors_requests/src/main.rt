// Runs the Modbus slave on the cases of requests.bin and compares its answers, the tables and the whole reply buffer that it leaves with what
// stands there, which another implementation gave. The format is in reference/FORMAT.md, "Requests".
#![tactic(auto)]

mod before;
mod case;
mod counts;
mod judge;
mod tables;

use cases::program::{CaseFile, Cases};
use cases::{program, told};

// The tables m and d, which are those of the case before where a case says so; what d is wanted to be; how often each answer was met.
#[derive(Drop)]
struct Requests {
    m: [u8; 512],
    d: [i16; 8192],
    wanted: [i16; 8192],
    met: [usize; 30],
}

impl Cases for Requests {
    fn next(&mut self, fd: i32) -> bool {
        let c = case::next(fd, &mut self.m, &mut self.d, &mut self.wanted);
        told::one_more(&mut self.met, c.number);
        c.agrees
    }

    fn tell(&self) {
        counts::tell(&self.met);
    }
}

fn main(rt: HostRuntime) -> std::io::Result<()> {
    let mut requests = Requests {
        m: tables::bytes(),
        d: tables::words(),
        wanted: tables::words(),
        met: [0; 30],
    };
    let file = CaseFile {
        name: "requests.bin",
        kind: 7,
        one: b"request",
        all: b"requests",
    };
    program::run(&rt, file, &mut requests)
}
