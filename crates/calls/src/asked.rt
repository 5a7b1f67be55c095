// Which command a call asks for.
ghost use Rattle.calls.specs.Asked.{number_of_command, fits_of, command_of, is_salvage};
ghost use Rattle.std.specs.Prelude.{◌≡◌, ◌≤◌, IfNone, IfSome};

use crate::names::Command;
use crate::text;
use check::same;

// The command whose name has this place in the list.
fn named(place: usize) -> Option<Command>
    ensures none { IfNone result (12 ≤ place) }
    ensures value { IfSome result (λ command. number_of_command (Some command) ≡ place) }
{
    Some(match place {
        0 => Command::Check,
        1 => Command::Map,
        2 => Command::Move,
        3 => Command::Exchange,
        4 => Command::Scan,
        5 => Command::Trial,
        6 => Command::Demo,
        7 => Command::Answer,
        8 => Command::Slave,
        9 => Command::Clashes,
        10 => Command::Longer,
        11 => Command::Job,
        _ => return None,
    })
}

// Whether a call of so many words is one of the command.
#[tactic(auto, unfolding(crate::specs::Asked::fits_of))]
fn fits(command: Command, count: usize) -> bool
    ensures { result ≡ fits_of (number_of_command (Some command)) count }
{
    match command {
        Command::Check | Command::Map => count == 2,
        Command::Move => count == 6,
        Command::Exchange => count == 5,
        Command::Scan => (count == 4) | (count == 5),
        Command::Trial => count == 8,
        Command::Demo | Command::Answer => count == 4,
        Command::Slave => count == 9,
        Command::Clashes => (count == 2) | (count == 3),
        Command::Longer => count == 3,
        Command::Job => (count == 3) | (count == 4),
        Command::Picture => false,
    }
}

// The command of a call, by its first word and how many there are.
pub fn command(call: &[u8]) -> Option<Command>
    ensures { number_of_command result ≡ command_of call.now }
{
    let place = text::which(
        text::word(call, 0),
        b"check\0map\0move\0exchange\0scan\0trial\0demo\0answer\0slave\0clashes\0longer\0job\0",
        12,
    );
    let command = named(place)?;
    let count = text::count(call);
    if fits(command, count) {
        return Some(command);
    }
    let pictured = same(text::word(call, 1), b"--picture");
    if (command == Command::Map) & (count == 3) & pictured {
        return Some(Command::Picture);
    }
    None
}

// Whether it is a call of salvage, which the list of names does not have.
pub fn salvages(call: &[u8]) -> bool
    ensures { result ≡ is_salvage call.now }
{
    let named = same(text::word(call, 0), b"salvage");
    named & (text::count(call) == 3)
}
