// clashes UNITS [FILE]: which declarations of a unit list clash; and, with a program, which declared block it reaches over.
ghost use Rattle.std.specs.Prelude.{◌≡◌, length};

use crate::shown;
use calls::output::{Descriptor, Outputs};
use calls::results::{Outcome, Status, Tried};
use calls::{files, results, text};
use ec20::Refusal;
use std::fmt;
use std::rt::Files;
use telling::report;
use unit_texts::Units;

// Room for every clash that 64 declarations can have. It tells its length alone, so that no proof writes the zeros out.
fn room() -> [[u32; 2]; 2016]
    ensures { 2016 ≡ length result }
{
    [[0; 2]; 2016]
}

fn show_lines(u: Units, pairs: &[[u32; 2]], file: &[u8], out: Descriptor) -> fmt::Result {
    shown::clash_lines(out, u.table, pairs)?;
    shown::split_lines(out, &u.table.at[..u.count.min(64)], file)
}

// The clashes of a list that is spelt well, and the splits by a program, if the list is not refused: whether they were written. What is no program has no
// splits.
pub fn show(u: Units, file: &[u8], out: Descriptor) -> Result<fmt::Result, Refusal> {
    let mut pairs = room();
    let count = clashes::clashes_in(u.table, u.count, &mut pairs)?;
    Ok(show_lines(u, &pairs[..count.min(2016)], file, out))
}

fn tell(path: &[u8], u: Units, file: &[u8], to: Outputs) -> Outcome {
    match show(u, file, to.out) {
        Ok(written) => results::answered(Status::Answered, false, written, to.err),
        Err(refusal) => report::refused_by(
            path,
            refusal,
            "10: over 64 declarations, or a block is empty or not inside D0 to D7999",
            to,
        ),
    }
}

// Every line is read before anything else is judged; and with a program, that is judged ahead of the list's blocks.
fn judge(call: &[u8], list: &[u8], file: &[u8], to: Outputs) -> Outcome {
    let path = text::word(call, 1);
    let u = unit_texts::read(list);
    if let Err(refusal) = u.fault {
        let line = refusal.at;
        return report::refused_by(
            path,
            refusal,
            format_args!(
                "15 at line {line}, counted from 0: not UNIT (0 to 65535), NAME (eight bytes), START and LENGTH with one blank between, or not ended"
            ),
            to,
        );
    }
    if text::count(call) == 3 {
        if let Err(refusal) = checker::check(file) {
            return report::refused(text::word(call, 2), file, refusal, to);
        }
    }
    tell(path, u, file, to)
}

pub fn run(rt: &impl Files, call: &[u8], to: Outputs) -> Tried<Outcome> {
    let mut list = io::large_buffer();
    let n = files::load(rt, text::word(call, 1), to.err, &mut list)?;
    let mut file = io::large_buffer();
    let m = if text::count(call) == 3 {
        files::load(rt, text::word(call, 2), to.err, &mut file)?
    } else {
        0
    };
    Ok(judge(call, files::kept(&list[..n]), &file[..m], to))
}
