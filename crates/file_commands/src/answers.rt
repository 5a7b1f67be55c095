// answer MEMORY STATION REQUEST: the Modbus request whose bytes a file has, at the station, over a memory file. That is replaced only if the request
// changed it.
use calls::output::Outputs;
use calls::results::{Outcome, Tried};
use calls::{files, numbers, text};
use check::same;
use memories::{answers, tables};
use std::random::RandomSource;
use std::rt::Files;
use telling::report;

// before: the bytes of the memory file, which stand in the image too. No function has a request of 65,536 bytes, so that the start of a longer file that
// fits the buffer is not answered either. The answer is told once the memory file is as it is to be.
fn run_over(
    rt: &(impl Files + RandomSource),
    call: &[u8],
    station: u32,
    before: &[u8],
    image: &mut [u8; 16892],
    to: Outputs,
) -> Tried<Outcome> {
    let mut frame = io::large_buffer();
    let n = files::load(rt, text::word(call, 3), to.err, &mut frame)?;
    let path = text::word(call, 1);
    let mut reply = io::buffer();
    match answers::in_image(image, before.len(), station, &frame[..n], &mut reply) {
        Err(refusal) => {
            let outcome = report::refused_memory(path, refusal, to);
            report::of_before(refusal.number, before.len(), to.err);
            Ok(outcome)
        }
        Ok(length) => {
            let replaced = !same(before, image);
            if replaced {
                files::replace(rt, path, image, to.err)?;
            }
            let bytes = length.map(|n| &reply[..n.min(reply.len())]);
            Ok(report::answered(bytes, replaced, to))
        }
    }
}

// A longer memory file than the buffer holds is refused by 9, as each of another size is.
pub fn run(rt: &(impl Files + RandomSource), call: &[u8], to: Outputs) -> Tried<Outcome> {
    let station = numbers::word(call, 2, "STATION", to.err)?;
    let mut memory = io::large_buffer();
    let n = files::load(rt, text::word(call, 1), to.err, &mut memory)?;
    let mut image = tables::image();
    tables::start(&memory, &mut image);
    run_over(rt, call, station, &memory[..n], &mut image, to)
}
