// The commands over declarations of blocks: clashes and longer. Each is handed the system, a call and where to write. Neither changes a file.
#![tactic(auto)]

pub mod lists;
mod parts;
mod shown;

ghost use Rattle.std.specs.Prelude.{◌≡◌, ◌||◌, ◌==◌, Some};
ghost use Rattle.calls.specs.Asked.{number_of_command};

use calls::names::Command;
use calls::output::Outputs;
use calls::results;
use calls::results::Outcome;
use std::rt::Files;

// Whether the command is one of these.
pub fn knows(command: Command) -> bool
    ensures { result ≡ (number_of_command (Some command) == 9 || number_of_command (Some command) == 10) }
{
    matches!(command, Command::Clashes | Command::Longer)
}

pub fn run(rt: &impl Files, command: Command, call: &[u8], to: Outputs) -> Outcome {
    let tried = match command {
        Command::Longer => parts::run(rt, call, to),
        _ => lists::run(rt, call, to),
    };
    tried.unwrap_or(results::not_tried())
}
