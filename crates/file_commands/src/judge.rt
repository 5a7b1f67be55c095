// check FILE: the checker's verdict on a program file.
use calls::output::Outputs;
use calls::results::{Outcome, Tried};
use calls::{files, text};
use std::rt::Files;
use telling::report;

fn verdict(path: &[u8], file: &[u8], to: Outputs) -> Outcome {
    match checker::check(file) {
        Ok(accepted) => report::accepted(accepted, to),
        Err(refusal) => report::refused(path, file, refusal, to),
    }
}

// A program file is 44,104 bytes at most. A longer one is refused by 1, and so is the start of it that fits the buffer.
pub fn run(rt: &impl Files, call: &[u8], to: Outputs) -> Tried<Outcome> {
    let path = text::word(call, 1);
    let mut buf = io::large_buffer();
    let n = files::load(rt, path, to.err, &mut buf)?;
    Ok(verdict(path, &buf[..n], to))
}
