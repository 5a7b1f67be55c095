// move FILE START LENGTH POOLSTART POOLEND: a block of D words renamed to the lowest place in the pool. The program file is replaced.
use calls::numbers::Asked;
use calls::output::Outputs;
use calls::results::{Outcome, Tried};
use calls::{files, numbers, text};
use std::random::RandomSource;
use std::rt::Files;
use telling::report;
use telling::spans::Run;

// The answer is told once the file is replaced.
fn run_file(
    rt: &(impl Files + RandomSource),
    path: &[u8],
    file: &mut [u8],
    a: Asked,
    to: Outputs,
) -> Tried<Outcome> {
    match mover::move_block(file, a.start, a.length, a.pool_start, a.pool_end) {
        Ok(place) => {
            files::replace(rt, path, file, to.err)?;
            let length = a.length as usize;
            let block = Run {
                first: a.start as usize,
                length,
            };
            let there = Run {
                first: place,
                length,
            };
            Ok(report::moved(block, there, to))
        }
        Err(refusal) => Ok(report::refused(path, file, refusal, to)),
    }
}

// A longer file than the buffer holds is refused by 1, as for check, so that no part of a file is ever written back.
pub fn run(rt: &(impl Files + RandomSource), call: &[u8], to: Outputs) -> Tried<Outcome> {
    let a = numbers::block_and_pool(call, to.err)?;
    let path = text::word(call, 1);
    let mut buf = io::large_buffer();
    let n = files::load(rt, path, to.err, &mut buf)?;
    run_file(rt, path, &mut buf[..n], a, to)
}
