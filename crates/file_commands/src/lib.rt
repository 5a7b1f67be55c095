// The commands that make no scan: check, map, move, exchange, answer and salvage. Each is handed the system, a call and where to write. Nothing is promised
// beyond safety.
#![tactic(auto)]

mod answers;
mod exchanges;
mod judge;
mod map;
mod moves;
mod salvages;

use calls::names::Command;
use calls::output::Outputs;
use calls::results::Outcome;
use calls::{asked, results};
use std::random::RandomSource;
use std::rt::Files;
use telling::report;

// The command; a call that asks for none of them is told how to call.
pub fn run(
    rt: &(impl Files + RandomSource),
    command: Option<Command>,
    call: &[u8],
    to: Outputs,
) -> Outcome {
    let tried = match command {
        Some(Command::Check) => judge::run(rt, call, to),
        Some(Command::Map) => map::run(rt, call, 1, false, to),
        Some(Command::Picture) => map::run(rt, call, 2, true, to),
        Some(Command::Move) => moves::run(rt, call, to),
        Some(Command::Exchange) => exchanges::run(rt, call, to),
        Some(Command::Answer) => answers::run(rt, call, to),
        _ if asked::salvages(call) => salvages::run(rt, call, to),
        _ => return report::usage(to.err),
    };
    tried.unwrap_or(results::not_tried())
}
