// A turn of a slave: a scan, what came over the line, and the answer to one frame at most.
ghost use Rattle.engine.specs.Made.{Made, Goes};

use crate::state;
use crate::state::State;
use crate::wanted::Wanted;
use calls::output::Descriptor;
use engine::Ready;
use memories::answers;
use serial::{held, times};
use std::fs::File;
use std::io::{IsTerminal, Read, Write};
use std::os::unix::fs::FileExt;
use std::rt::Clock;

// The most steps that a scan of a slave may take, which is more than one without a budget may (document 02, (vi)).
pub const BUDGET: u32 = 1_000_000;

// Whether the time is over.
fn is_late(w: Wanted, begun: u64, now: u64) -> bool {
    (w.seconds != 0) & (times::between(begun, now) >= u64::from(w.seconds) * 1000)
}

// Whether it is asked to end.
fn is_stopped(stop: Option<&File>) -> bool {
    let mut one = [0u8; 1];
    match stop {
        Some(file) => file.read_at(&mut one, 0).unwrap_or(0) > 0,
        None => false,
    }
}

// The program was accepted, so that no scan is refused; it was made ready once, so that none checks it again.
fn scanned<'a>(
    f: &[u8],
    p: Ready,
    goes: &[usize; 2000],
    image: &mut [u8; 16892],
    mut s: State<'a>,
    moment: u64,
) -> State<'a>
    requires made { Made f.now p }
    requires goes { Goes f.now p goes.now }
{
    let n = times::since(s.counted, moment);
    let _ = memory_scans::scan_ready(p, goes, f, image, 16892, n.elapsed, BUDGET);
    s.counted = n.until;
    s.counts.scans = s.counts.scans.wrapping_add(1);
    s
}

// What the line has is held with what came before. A line that cannot be read is hung up.
fn read<'a>(rt: &impl Clock, held: &mut [u8], mut s: State<'a>) -> State<'a> {
    let mut bytes = io::buffer();
    let mut device = s.device;
    s.over = false;
    let n = match device.read(&mut bytes) {
        Ok(n) => n,
        Err(_) => {
            s.over = true;
            0
        }
    };
    s.came = n;
    s.held = held::more(held, s.held, &bytes[..n]);
    if n > 0 {
        s.heard = clock::milliseconds(rt);
    }
    s
}

// How long the frame is that the bytes held begin with, or 0. now: a moment before the line was read, so that nothing came until then.
fn frame(held: &[u8], w: Wanted, s: State<'_>, now: u64) -> usize {
    let silence = (s.came == 0) & (times::between(s.heard, now) > u64::from(w.silence));
    held::frame(w.station as usize, held, silence)
}

fn silent(mut s: State<'_>) -> State<'_> {
    s.counts.silent = s.counts.silent.wrapping_add(1);
    s
}

// A reply. A line that does not take it is hung up.
fn sent<'a>(reply: &[u8], mut s: State<'a>) -> State<'a> {
    s.counts.replies = s.counts.replies.wrapping_add(1);
    let mut device = s.device;
    if device.write_all(reply).is_err() {
        s.over = true;
    }
    s
}

// The frame is answered. The station was judged, so that no call is refused.
fn answered<'a>(image: &mut [u8; 16892], frame: &[u8], w: Wanted, mut s: State<'a>) -> State<'a> {
    s.counts.requests = s.counts.requests.wrapping_add(1);
    let mut reply = state::reply();
    match answers::in_image(image, 16892, w.station, frame, &mut reply) {
        Ok(Some(n)) => sent(&reply[..n.min(reply.len())], s),
        _ => silent(s),
    }
}

// The frame is the first k bytes held, which are then held no more.
fn taken<'a>(
    image: &mut [u8; 16892],
    held: &mut [u8],
    k: usize,
    w: Wanted,
    mut s: State<'a>,
) -> State<'a> {
    if k > held.len() {
        return s;
    }
    s = answered(image, &held[..k], w, s);
    s.held = held::less(held, s.held, k);
    s
}

// Nothing is to be answered. Where nothing came, a moment is waited; but a line that has nothing and is no terminal any more is hung up, and what never was
// one is at its end.
fn rested<'a>(rt: &impl Clock, mut s: State<'a>) -> State<'a> {
    if s.came > 0 {
        return s;
    }
    if !s.device.is_terminal() {
        s.over = true;
        return s;
    }
    clock::pause(rt, 1);
    s
}

// How far it is, each second.
fn shown<'a>(w: Wanted, mut s: State<'a>, now: u64, err: Descriptor) -> State<'a> {
    if (w.told != 0) & (times::between(s.shown, now) >= 1000) {
        s.shown = now;
        let _ = s.counts.tell(err);
    }
    s
}

// After the line was read: the answer to a frame, or a rest.
fn served<'a>(
    rt: &impl Clock,
    image: &mut [u8; 16892],
    held: &mut [u8],
    w: Wanted,
    s: State<'a>,
    now: u64,
) -> State<'a> {
    let n = s.held.min(held.len());
    let k = frame(&held[..n], w, s, now);
    if k > 0 {
        return taken(image, held, k, w, s);
    }
    rested(rt, s)
}

pub fn turn<'a>(
    rt: &impl Clock,
    f: &[u8],
    p: Ready,
    goes: &[usize; 2000],
    image: &mut [u8; 16892],
    held: &mut [u8],
    w: Wanted,
    mut s: State<'a>,
    err: Descriptor,
) -> State<'a>
    requires made { Made f.now p }
    requires goes { Goes f.now p goes.now }
{
    let now = clock::milliseconds(rt);
    s = shown(w, s, now, err);
    if is_late(w, s.begun, now) | is_stopped(s.stop) {
        s.over = true;
        return s;
    }
    s = read(rt, held, s);
    s = served(rt, image, held, w, s, now);
    scanned(f, p, goes, image, s, now)
}
