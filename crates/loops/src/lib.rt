// Refusal 6 and W: "A sequence may hold loops and a loop holds a sequence, at most 8 deep." Two walkers call each other; remaining records
// fall at each call.
#![tactic(auto)]

ghost use Rattle.std.specs.Prelude.{◌+◌, ◌*◌, ◌<◌, ◌≤◌, min, length, ◌≡◌};
ghost use Rattle.ec20.specs.Code.{program_in};
ghost use Rattle.ec20.specs.Control.{controls_of};
ghost use Rattle.ec20.specs.File.{records_from};
ghost use Rattle.ec20.specs.Walkers.{last_act, mid_act, act_of, plus, walk_of};
ghost use Rattle.loops.specs.Capped.{cap, capped};
ghost use Rattle.loops.specs.Walks.{controls_in, loop_of, IsSequence, IsLoop, Small};
ghost use Rattle.records.specs.Ranges.{Held};

use ec20::{Act, Control, Walk};

// One more than the most steps that 8, "W above 10,000,000", lets pass: a larger W is told as this.
const CAP: usize = 10_000_001;

// What the last record asks: "last record not END or a FOR open there" is refused.
#[tactic(auto, unfolding(ec20::specs::Walkers::last_act))]
fn last_act(c: Control, depth: usize) -> Act
    ensures { result ≡ last_act c depth }
{
    match c {
        Control::Ends => { if depth == 0 { Act::Finish } else { Act::Refuse } }
        _ => Act::Refuse,
    }
}

// What any other record asks: "NEXT with no FOR open, ninth open FOR, END not last" are refused.
#[tactic(auto, unfolding(ec20::specs::Walkers::mid_act))]
fn mid_act(c: Control, depth: usize) -> Act
    ensures { result ≡ mid_act c depth }
{
    match c {
        Control::Opens(n) => {
            if depth < 8 {
                Act::Enter(n)
            } else {
                Act::Refuse
            }
        }
        Control::Closes => { if 0 < depth { Act::Leave } else { Act::Refuse } }
        Control::Ends => Act::Refuse,
        Control::Plain | Control::Jumps(_) | Control::Marks(_) => Act::Go(1),
    }
}

// What record `at` asks, with `depth` loops open.
#[tactic(auto, unfolding(ec20::specs::Walkers::act_of))]
fn asked(f: &[u8], first: usize, count: usize, at: usize, depth: usize) -> Act
    requires held { Held (length f.now) first count }
    requires at_lt_count { at < count }
    ensures { result ≡ act_of (controls_in f.now first count) count at depth }
{
    let c = decode::control_at(f, first, count, at);
    if at + 1 == count {
        return last_act(c, depth);
    }
    mid_act(c, depth)
}

// So many steps, or 10,000,001 if they are more.
fn least(steps: usize) -> usize
    ensures { result ≡ min steps cap }
{
    steps.min(CAP)
}

// More steps ahead of what was walked: "W of a body is the sum over its records".
#[tactic(auto, unfolding(crate::specs::Walks::Small, crate::specs::Capped::capped, ec20::specs::Walkers::plus))]
fn add(w: Walk, more: usize) -> Walk
    requires { (more ≤ cap) × Small (Ok w) }
    ensures { Ok result ≡ capped (plus more (Ok w)) }
{
    Walk {
        next: w.next,
        steps: least(more + w.steps),
    }
}

// The loop whose body was walked up to its NEXT: "a loop counting 1 + n x (W of its body + 1)". As many passes as the cap are enough.
#[tactic(auto, unfolding(crate::specs::Walks::Small))]
fn closed(w: Walk, passes: usize) -> Walk
    requires { Small (Ok w) }
    ensures { Ok result ≡ capped (loop_of passes (Ok w)) }
{
    Walk {
        next: w.next + 1,
        steps: least(1 + least(passes) * (w.steps + 1)),
    }
}

// The records of a sequence from `at` on, with `depth` loops open, up to the NEXT of its loop or after END. Only a loop is a call, so that
// the stack holds no more than the open loops.
#[cycle(in_loop_sequence)]
fn sequence(f: &[u8], first: usize, count: usize, at: usize, depth: usize) -> Result<Walk, usize>
    requires held { Held (length f.now) first count }
    requires at_lt_count { (at < count) × (depth ≤ 8) }
    ensures { IsSequence (controls_in f.now first count) count at depth result }
{
    let mut k = at;
    let mut steps = 0;
    while k < count {
        let next = k + 1;
        match asked(f, first, count, k, depth) {
            Act::Go(n) => {
                steps = least(steps + n);
                k = next;
                continue;
            }
            Act::Enter(n) => {
                let inner = in_loop(f, first, count, next, depth + 1, n)?;
                steps = least(steps + inner.steps);
                k = inner.next;
                continue;
            }
            Act::Leave => return Ok(Walk { next: k, steps }),
            Act::Finish => {
                steps = least(steps + 1);
                return Ok(Walk { next, steps });
            }
            Act::Refuse => return Err(k),
        }
    }
    Err(k)
}

// The loop of so many passes whose body begins at record `body`, the record after its FOR, with `depth` loops open, it among them: up to
// after its NEXT. The body's first record is judged here, so that remaining records fall at each call.
#[cycle(in_loop_sequence)]
fn in_loop(
    f: &[u8],
    first: usize,
    count: usize,
    body: usize,
    depth: usize,
    passes: usize,
) -> Result<Walk, usize>
    requires held { Held (length f.now) first count }
    requires body_lt_count { (body < count) × ((0 < depth) × (depth ≤ 8)) }
    ensures { IsLoop (controls_in f.now first count) count body depth passes result }
{
    let next = body + 1;
    match asked(f, first, count, body, depth) {
        Act::Go(n) => {
            let rest = sequence(f, first, count, next, depth)?;
            Ok(closed(add(rest, n), passes))
        }
        Act::Enter(n) => {
            let inner = in_loop(f, first, count, next, depth + 1, n)?;
            let rest = sequence(f, first, count, inner.next, depth)?;
            Ok(closed(add(rest, inner.steps), passes))
        }
        Act::Leave => {
            let empty = Walk {
                next: body,
                steps: 0,
            };
            Ok(closed(empty, passes))
        }
        Act::Finish | Act::Refuse => Err(body),
    }
}

// The structure of a program, and W: the whole program is a sequence, with no loop open.
pub fn walk(f: &[u8], first: usize, count: usize) -> Result<Walk, usize>
    requires { Held (length f.now) first count }
    ensures { result ≡ capped (walk_of (controls_of (program_in (records_from f.now first count))) count) }
{
    sequence(f, first, count, 0, 0)
}
