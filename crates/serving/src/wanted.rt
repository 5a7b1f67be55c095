// What a call asks for.
ghost use Rattle.calls.specs.Numbers.{is_number, number_of};
ghost use Rattle.calls.specs.Text.{word_of};
ghost use Rattle.std.specs.Prelude.{◌≡◌, ◌&&◌, ◌↔◌, IsOk, IfOk, IsTrue};

use calls::output::Descriptor;
use calls::results::Tried;
use calls::{numbers, text};

// The own station; how many seconds it goes on, 0 for without end; the silence that ends a frame, in milliseconds; whether it is told each second how far
// it is.
#[derive(Clone, Copy)]
pub struct Wanted {
    pub station: u32,
    pub seconds: u32,
    pub silence: u32,
    pub told: u32,
}

// A word that is none of the user's: 0 where it is no number.
fn own(call: &[u8], i: usize) -> u32
    ensures { result ≡ number_of (word_of call.now i) }
{
    numbers::parsed(text::word(call, i)).unwrap_or(0)
}

// Words 4, 5, 6 and 8, where station and seconds are numbers.
pub fn asked(call: &[u8], err: Descriptor) -> Tried<Wanted>
    ensures some { IsOk result ↔ IsTrue (is_number (word_of call.now 4) && is_number (word_of call.now 5)) }
    ensures station_value { IfOk result (λ w. (w.station ≡ number_of (word_of call.now 4)) × (w.seconds ≡ number_of (word_of call.now 5))) }
    ensures silence_value { IfOk result (λ w. (w.silence ≡ number_of (word_of call.now 6)) × (w.told ≡ number_of (word_of call.now 8))) }
{
    let station = numbers::word(call, 4, "STATION", err)?;
    let seconds = numbers::word(call, 5, "SECONDS", err)?;
    Ok(Wanted {
        station,
        seconds,
        silence: own(call, 6),
        told: own(call, 8),
    })
}
