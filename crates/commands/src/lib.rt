// The commands that scan: scan, trial and demo (the slave stands in the crate serving). A call is lent as bytes: its words, each ended by a zero byte, of
// which the first names the command. What it answers goes to `out`; what a refusal means, and what could not be tried, to `err`. What needs no scan
// stands in the crates beginnings and file_commands.
#![tactic(auto)]

mod scan;
mod trial;

ghost use Rattle.std.specs.Prelude.{◌≡◌, ◌||◌, ◌==◌, Some};
ghost use Rattle.calls.specs.Asked.{number_of_command};

use calls::names::Command;
use calls::output::Outputs;
use calls::results;
use calls::results::Outcome;
use std::random::RandomSource;
use std::rt::Files;

// Whether the command is one of these.
pub fn scans(command: Command) -> bool
    ensures { result ≡ (number_of_command (Some command) == 4 || number_of_command (Some command) == 5 || number_of_command (Some command) == 6) }
{
    matches!(command, Command::Scan | Command::Trial | Command::Demo)
}

pub fn run(
    rt: &(impl Files + RandomSource),
    command: Command,
    call: &[u8],
    to: Outputs,
) -> Outcome {
    let tried = match command {
        Command::Scan => scan::run(rt, call, to),
        _ => trial::run(rt, command, call, to),
    };
    tried.unwrap_or(results::not_tried())
}
