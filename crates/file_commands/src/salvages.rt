// salvage TORN OUT: what can be kept of a torn program file, written as a proper file. OUT is made, or replaced.
use calls::output::Outputs;
use calls::results::{Outcome, Tried};
use calls::{files, text};
use std::random::RandomSource;
use std::rt::Files;
use telling::report;
use torn::Saved;

// The answer is told once the file is written; and then what the check says of it, if it refuses it.
fn tell(
    rt: &(impl Files + RandomSource),
    path: &[u8],
    file: &[u8],
    saved: Saved,
    to: Outputs,
) -> Tried<Outcome> {
    files::replace(rt, path, file, to.err)?;
    let outcome = report::kept(saved.kept, saved.added == 1, saved.rest, to);
    if let Err(refusal) = checker::check(file) {
        report::still_refused(path, file, refusal, to.err);
    }
    Ok(outcome)
}

// more: how many bytes of the file stand behind those that are lent. They are part of the rest and nothing else: the buffer holds more than 2,001 records.
fn run_over(
    rt: &(impl Files + RandomSource),
    call: &[u8],
    torn: &[u8],
    more: usize,
    to: Outputs,
) -> Tried<Outcome> {
    let mut room = io::large_buffer();
    match salvage::salvage(torn, &mut room) {
        Err(refusal) => Ok(report::refused_by(
            text::word(call, 1),
            refusal,
            "1: over 2,000 records, an added END included",
            to,
        )),
        Ok(saved) => {
            let n = 20 * (saved.kept + saved.added) + 8;
            let all = Saved {
                rest: saved.rest.wrapping_add(more),
                ..saved
            };
            tell(rt, text::word(call, 2), &room[..n], all, to)
        }
    }
}

// A torn file may be of any length. It is read to its end before anything is judged.
pub fn run(rt: &(impl Files + RandomSource), call: &[u8], to: Outputs) -> Tried<Outcome> {
    let mut buf = io::large_buffer();
    let loaded = files::load_long(rt, text::word(call, 1), to.err, &mut buf)?;
    let n = loaded.n;
    run_over(rt, call, &buf[..n], loaded.more, to)
}
