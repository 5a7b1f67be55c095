// scan FILE MEMORY ELAPSED [BUDGET]: a scan of a program file over a memory file, which is replaced by the memory after it.
use beginnings::scans;
use beginnings::scans::Scan;
use calls::output::Outputs;
use calls::results::{Outcome, Tried};
use memories::tables;
use std::random::RandomSource;
use std::rt::Files;

// The program file's bytes and the memory file's, of which there were so many.
fn run_loaded(
    rt: &(impl Files + RandomSource),
    call: &[u8],
    f: &[u8],
    memory: &[u8; 65536],
    size: usize,
    a: Scan,
    to: Outputs,
) -> Tried<Outcome> {
    let mut image = tables::image();
    tables::start(memory, &mut image);
    let scanned = memory_scans::scan(f, &mut image, size, a.elapsed, a.budget);
    scans::tell(rt, call, f, scanned, &image, size, to)
}

pub fn run(rt: &(impl Files + RandomSource), call: &[u8], to: Outputs) -> Tried<Outcome> {
    let a = scans::asked(call, to.err)?;
    let mut file = io::large_buffer();
    let mut memory = io::large_buffer();
    let sizes = scans::load(rt, call, 2, to.err, &mut file, &mut memory)?;
    let n = sizes.program;
    run_loaded(rt, call, &file[..n], &memory, sizes.memory, a, to)
}
