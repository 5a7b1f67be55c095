// exchange MEMORY START LENGTH PLACE: the D words of a block and of a place of the same length change places. The memory file is replaced.
use calls::output::Outputs;
use calls::results::{Outcome, Tried};
use calls::{files, numbers, text};
use ec20::Refusal;
use memories::exchanges::Way;
use memories::{exchanges, tables};
use std::random::RandomSource;
use std::rt::Files;
use telling::report;
use telling::spans::Run;

// The answer is told once the memory file, of so many bytes, is replaced.
fn tell(
    rt: &(impl Files + RandomSource),
    path: &[u8],
    answer: Result<(), Refusal>,
    w: Way,
    image: &[u8; 16892],
    size: usize,
    to: Outputs,
) -> Tried<Outcome> {
    if let Err(refusal) = answer {
        let outcome = report::refused_memory(path, refusal, to);
        report::of_before(refusal.number, size, to.err);
        return Ok(outcome);
    }
    files::replace(rt, path, image, to.err)?;
    let length = w.length as usize;
    let block = Run {
        first: w.start as usize,
        length,
    };
    let place = Run {
        first: w.place as usize,
        length,
    };
    Ok(report::exchanged(block, place, to))
}

pub fn run(rt: &(impl Files + RandomSource), call: &[u8], to: Outputs) -> Tried<Outcome> {
    let w = Way {
        start: numbers::word(call, 2, "START", to.err)?,
        length: numbers::word(call, 3, "LENGTH", to.err)?,
        place: numbers::word(call, 4, "PLACE", to.err)?,
    };
    let path = text::word(call, 1);
    let mut memory = io::large_buffer();
    let size = files::load(rt, path, to.err, &mut memory)?;
    let mut image = tables::image();
    tables::start(&memory, &mut image);
    let answer = exchanges::in_image(&mut image, size, w);
    tell(rt, path, answer, w, &image, size, to)
}
