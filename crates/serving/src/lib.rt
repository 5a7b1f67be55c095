// slave FILE MEMORY DEVICE STATION SECONDS SILENCE STOP TOLD: scans a program over a memory again and again, and answers the Modbus requests that come
// over a serial line in between. Then the memory file is replaced by the memory as it is. Nothing is promised beyond safety: what a scan does is
// proved of the crate engine, what a request does of the crate requests.
#![tactic(auto)]

mod state;
mod turn;
mod wanted;

ghost use Rattle.engine.specs.Made.{Made, Goes};

use beginnings::scans;
use calls::output::{Descriptor, Outputs};
use calls::results::{Outcome, Status, Tried};
use calls::{files, results, text};
use ec20::{Refusal, Stop};
use engine::Ready;
use memories::tables;
use state::{Counts, State};
use std::fs::File;
use std::random::RandomSource;
use std::rt::{Clock, Files};
use wanted::Wanted;

// So many turns at most, more than there are milliseconds in a hundred million years: so it is seen to end.
const TURNS: u64 = 4611686018427387904;

// Turns until one of them is the last.
fn turns<'a>(
    rt: &impl Clock,
    f: &[u8],
    p: Ready,
    goes: &[usize; 2000],
    image: &mut [u8; 16892],
    held: &mut [u8],
    w: Wanted,
    begun: State<'a>,
    err: Descriptor,
) -> State<'a>
    requires made { Made f.now p }
    requires goes { Goes f.now p goes.now }
{
    let mut s = begun;
    for _turn in 0..TURNS {
        s = turn::turn(rt, f, p, goes, image, held, w, s, err);
        if s.over {
            break;
        }
    }
    s
}

// The memory file is replaced, and then it is told what happened.
fn tell(
    rt: &(impl Files + RandomSource),
    call: &[u8],
    counts: Counts,
    image: &[u8; 16892],
    to: Outputs,
) -> Tried<Outcome> {
    files::replace(rt, text::word(call, 2), image, to.err)?;
    let written = counts.tell(to.out);
    Ok(results::answered(Status::Answered, true, written, to.err))
}

// The line is opened, served until the end, and closed.
fn served<R: Files<File = File> + Clock>(
    rt: &R,
    call: &[u8],
    f: &[u8],
    p: Ready,
    goes: &[usize; 2000],
    image: &mut [u8; 16892],
    w: Wanted,
    err: Descriptor,
) -> Tried<Counts>
    requires made { Made f.now p }
    requires goes { Goes f.now p goes.now }
{
    let device = files::open(rt, text::word(call, 3), err)?;
    let stop = files::open_read(rt, text::word(call, 7)).ok();
    let mut held = state::room();
    let s = turns(
        rt,
        f,
        p,
        goes,
        image,
        &mut held,
        w,
        state::begun(rt, &device, stop.as_ref()),
        err,
    );
    Ok(s.counts)
}

// What came of it is told when the line is closed.
fn serve<R: Files<File = File> + RandomSource + Clock>(
    rt: &R,
    call: &[u8],
    f: &[u8],
    p: Ready,
    goes: &[usize; 2000],
    image: &mut [u8; 16892],
    w: Wanted,
    to: Outputs,
) -> Tried<Outcome>
    requires made { Made f.now p }
    requires goes { Goes f.now p goes.now }
{
    let counts = served(rt, call, f, p, goes, image, w, to.err)?;
    tell(rt, call, counts, image, to)
}

// After the first scan, by which the program and the memory file, of so many bytes, are judged; then the station is.
fn judged<R: Files<File = File> + RandomSource + Clock>(
    rt: &R,
    call: &[u8],
    f: &[u8],
    p: Ready,
    goes: &[usize; 2000],
    scanned: Result<Stop, Refusal>,
    image: &mut [u8; 16892],
    size: usize,
    w: Wanted,
    to: Outputs,
) -> Tried<Outcome>
    requires made { Made f.now p }
    requires goes { Goes f.now p goes.now }
{
    if let Err(refusal) = scanned {
        return Ok(scans::refused(call, f, refusal, size, to));
    }
    if (1..=247).contains(&w.station) {
        return serve(rt, call, f, p, goes, image, w, to);
    }
    let unknown = Refusal { number: 16, at: 0 };
    Ok(scans::refused(call, f, unknown, size, to))
}

// The program file's bytes and the memory file's, of which there were so many.
fn run_loaded<R: Files<File = File> + RandomSource + Clock>(
    rt: &R,
    call: &[u8],
    f: &[u8],
    memory: &[u8; 65536],
    size: usize,
    w: Wanted,
    to: Outputs,
) -> Tried<Outcome> {
    let mut image = tables::image();
    tables::start(memory, &mut image);
    let p = engine::make_ready(f);
    let goes = engine::look_up(f, p);
    let scanned = memory_scans::scan_ready(p, &goes, f, &mut image, size, 0, turn::BUDGET);
    judged(rt, call, f, p, &goes, scanned, &mut image, size, w, to)
}

fn run_asked<R: Files<File = File> + RandomSource + Clock>(
    rt: &R,
    call: &[u8],
    to: Outputs,
) -> Tried<Outcome> {
    let w = wanted::asked(call, to.err)?;
    let mut file = io::large_buffer();
    let mut memory = io::large_buffer();
    let sizes = scans::load(rt, call, 2, to.err, &mut file, &mut memory)?;
    let n = sizes.program;
    run_loaded(rt, call, &file[..n], &memory, sizes.memory, w, to)
}

pub fn run<R: Files<File = File> + RandomSource + Clock>(
    rt: &R,
    call: &[u8],
    to: Outputs,
) -> Outcome {
    run_asked(rt, call, to).unwrap_or(results::not_tried())
}
