// longer TEXT1 TEXT2: the first line of whichever declaration text holds the longer block, or nothing.
use calls::output::Outputs;
use calls::results::{Outcome, Status, Tried};
use calls::{files, results, text};
use std::rt::Files;

fn tell<'a>(one: &'a [u8], two: &'a [u8], to: Outputs) -> Outcome {
    let written = to.out.put(longer::longer(one, two));
    results::answered(Status::Answered, false, written, to.err)
}

// More may follow the first line, so that the start of a text which fits the buffer is enough.
pub fn run(rt: &impl Files, call: &[u8], to: Outputs) -> Tried<Outcome> {
    let mut one = io::large_buffer();
    let n = files::load(rt, text::word(call, 1), to.err, &mut one)?;
    let mut two = io::large_buffer();
    let m = files::load(rt, text::word(call, 2), to.err, &mut two)?;
    Ok(tell(&one[..n], &two[..m], to))
}
