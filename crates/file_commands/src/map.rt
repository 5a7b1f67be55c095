// map FILE: which D words a program reads and which it writes, as runs or as a picture.
use calls::output::Outputs;
use calls::results::{Outcome, Status, Tried};
use calls::{files, results, text};
use ec20::UseMap;
use std::fmt;
use std::rt::Files;
use telling::{picture, report, spans};

fn show(m: UseMap, pictured: bool, to: Outputs) -> fmt::Result {
    let read = m.read;
    let written = m.written;
    if pictured {
        return picture::show(to.out, &read, &written);
    }
    spans::show(to.out, &read, &written)
}

fn tell(path: &[u8], file: &[u8], pictured: bool, to: Outputs) -> Outcome {
    match usemap::use_map(file) {
        Ok(m) => results::answered(Status::Answered, false, show(m, pictured, to), to.err),
        Err(refusal) => report::refused(path, file, refusal, to),
    }
}

// The map, or the picture of it, of the file that word `word` names. A longer file than the buffer holds is refused by 1, as for check.
pub fn run(
    rt: &impl Files,
    call: &[u8],
    word: usize,
    pictured: bool,
    to: Outputs,
) -> Tried<Outcome> {
    let path = text::word(call, word);
    let mut buf = io::large_buffer();
    let n = files::load(rt, path, to.err, &mut buf)?;
    Ok(tell(path, &buf[..n], pictured, to))
}
