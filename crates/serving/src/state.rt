// How far a slave is.
ghost use Rattle.std.specs.Prelude.{◌≡◌, false, length};

use calls::output::Descriptor;
use std::fmt;
use std::fmt::Write;
use std::fs::File;
use std::rt::Clock;

// What is told each second and at the end.
#[derive(Clone, Copy)]
pub struct Counts {
    pub scans: usize,
    pub requests: usize,
    pub replies: usize,
    pub silent: usize,
}

impl Counts {
    // As a line.
    pub fn tell(self, mut to: Descriptor) -> fmt::Result {
        writeln!(to, "{self}")
    }
}

impl fmt::Display for Counts {
    fn fmt<W: fmt::Write>(&self, f: &mut fmt::Formatter<W>) -> fmt::Result {
        let Counts {
            scans,
            requests,
            replies,
            silent,
        } = *self;
        write!(
            f,
            "scans {scans} requests {requests} replies {replies} silent {silent}"
        )
    }
}

// device: the line; stop: the file in which a byte asks to end, if there is one. Moments in milliseconds: when it began, up to when its scans have counted the time, when
// the last byte came, when it was last told how far it is. held: how many bytes came and are not answered yet; came: how many of them in this turn.
// over: whether this turn was the last.
#[derive(Clone, Copy)]
pub struct State<'a> {
    pub device: &'a File,
    pub stop: Option<&'a File>,
    pub begun: u64,
    pub counted: u64,
    pub heard: u64,
    pub shown: u64,
    pub held: usize,
    pub came: usize,
    pub counts: Counts,
    pub over: bool,
}

// One scan was made. All four moments are the one that the clock tells.
pub fn begun<'a>(rt: &impl Clock, device: &'a File, stop: Option<&'a File>) -> State<'a>
    ensures device_value { (result.device ≡ device.entry) × (result.stop ≡ stop.entry) × (result.counted ≡ result.begun) × (result.heard ≡ result.begun) × (result.shown ≡ result.begun) }
    ensures held_value { (result.held ≡ 0) × (result.came ≡ 0) × (result.counts.scans ≡ 1) × (result.counts.requests ≡ 0) × (result.counts.replies ≡ 0) × (result.counts.silent ≡ 0) × (result.over ≡ false) }
{
    let now = clock::milliseconds(rt);
    State {
        device,
        stop,
        begun: now,
        counted: now,
        heard: now,
        shown: now,
        held: 0,
        came: 0,
        counts: Counts {
            scans: 1,
            requests: 0,
            replies: 0,
            silent: 0,
        },
        over: false,
    }
}

// For the bytes that are held: more than two of the longest requests.
pub fn room() -> [u8; 600]
    ensures { 600 ≡ length result }
{
    [0; 600]
}

// For a reply.
pub fn reply() -> [u8; 256]
    ensures { 256 ≡ length result }
{
    [0; 256]
}
