// job FILE JOB [MEMORY]: the blocks that a job's lines name, each moved to its place in the program file, and their words exchanged in the memory file. It
// is handed the system, a call and where to write. What a job does is promised of the crates job_texts, job_moves and memory_jobs; here nothing is beyond
// safety.
#![tactic(auto)]

mod told;

ghost use Rattle.std.specs.Prelude.{◌≡◌, ◌==◌, Some};
ghost use Rattle.calls.specs.Asked.{number_of_command};

use calls::files::Unreplaced;
use calls::names::Command;
use calls::output::Outputs;
use calls::results::{Outcome, Tried};
use calls::{files, results, text};
use jobs::JobRefusal;
use memories::tables;
use std::random::RandomSource;
use std::rt::Files;

// Whether the command is this one.
pub fn knows(command: Command) -> bool
    ensures { result ≡ (number_of_command (Some command) == 11) }
{
    command == Command::Job
}

// The job over the program, and over the memory of the image where the call names a memory file, of so many bytes: one of another size is refused by 9,
// after 16 and 1 to 8.
fn answer(
    file: &mut [u8],
    image: &mut [u8; 16892],
    memory: Option<usize>,
    lines: &[[u32; 3]],
) -> Result<usize, JobRefusal> {
    match memory {
        Some(16892) => memory_jobs::in_image(file, image, lines),
        Some(_) => memory_jobs::alone(file, false, lines),
        None => memory_jobs::alone(file, true, lines),
    }
}

// The files are replaced.
fn replace(
    rt: &(impl Files + RandomSource),
    call: &[u8],
    file: &[u8],
    image: &[u8; 16892],
    memory: Option<usize>,
    to: Outputs,
) -> Result<(), Unreplaced> {
    let path = text::word(call, 1);
    if memory.is_some() {
        return files::replace_two(rt, path, file, text::word(call, 3), image, to.err);
    }
    Ok(files::replace(rt, path, file, to.err)?)
}

// The answer is told once the files are replaced.
fn tell(
    rt: &(impl Files + RandomSource),
    call: &[u8],
    file: &[u8],
    image: &[u8; 16892],
    memory: Option<usize>,
    lines: &[[u32; 3]],
    moves: usize,
    to: Outputs,
) -> Outcome {
    match replace(rt, call, file, image, memory, to) {
        Ok(()) => told::done(lines, moves, to),
        Err(Unreplaced::Second) => told::half(to.err),
        Err(Unreplaced::Both) => results::not_tried(),
    }
}

// The job of these lines.
fn run_lines(
    rt: &(impl Files + RandomSource),
    call: &[u8],
    file: &mut [u8],
    image: &mut [u8; 16892],
    memory: Option<usize>,
    lines: &[[u32; 3]],
    to: Outputs,
) -> Outcome {
    match answer(file, image, memory, lines) {
        Ok(moves) => tell(rt, call, file, image, memory, lines, moves, to),
        Err(refusal) => told::refused(call, file, memory.unwrap_or(0), lines, refusal, to),
    }
}

// Every line is read before anything else is judged. A job that has more lines than there is room for is refused by 16.
fn judge(
    rt: &(impl Files + RandomSource),
    call: &[u8],
    job: &[u8],
    file: &mut [u8],
    image: &mut [u8; 16892],
    memory: Option<usize>,
    to: Outputs,
) -> Outcome {
    let path = text::word(call, 2);
    let mut lines = job_texts::room();
    let read = job_texts::read(job, &mut lines);
    if let Err(refusal) = read.fault {
        return told::misspelt(path, refusal, to);
    }
    let n = read.count;
    if n > lines.len() {
        return told::too_long(path, to);
    }
    run_lines(rt, call, file, image, memory, &lines[..n], to)
}

// The memory file, if one is named, is read. A longer one than the buffer holds is refused by 9, as each of another size is.
fn run_over(
    rt: &(impl Files + RandomSource),
    call: &[u8],
    job: &[u8],
    file: &mut [u8],
    to: Outputs,
) -> Tried<Outcome> {
    let mut image = tables::image();
    if text::count(call) != 4 {
        return Ok(judge(rt, call, job, file, &mut image, None, to));
    }
    let mut memory = io::large_buffer();
    let size = files::load(rt, text::word(call, 3), to.err, &mut memory)?;
    tables::start(&memory, &mut image);
    Ok(judge(rt, call, job, file, &mut image, Some(size), to))
}

// All files are read before anything is judged. A longer program than the buffer holds is refused by 1, as for check, so that no part of a file is ever
// written back.
fn run_named(rt: &(impl Files + RandomSource), call: &[u8], to: Outputs) -> Tried<Outcome> {
    let mut job = io::large_buffer();
    let n = files::load(rt, text::word(call, 2), to.err, &mut job)?;
    let mut file = io::large_buffer();
    let m = files::load(rt, text::word(call, 1), to.err, &mut file)?;
    run_over(rt, call, files::kept(&job[..n]), &mut file[..m], to)
}

pub fn run(rt: &(impl Files + RandomSource), call: &[u8], to: Outputs) -> Outcome {
    run_named(rt, call, to).unwrap_or(results::not_tried())
}
