// A pair of scans: the old program over one memory, the moved one over the other. Demand 3 as code.
ghost use Rattle.demands.specs.Demand3.{with_exchange};
ghost use Rattle.ec20.specs.Move.{block};
ghost use Rattle.engine.specs.Made.{Made, Goes};
ghost use Rattle.image.specs.Image.{plant_of};
ghost use Rattle.memory_scans.specs.Pairs.{Paired};
ghost use Rattle.turns.specs.Turns.{MovedTo, Alike};
ghost use Rattle.std.specs.Prelude.{◌≡◌};

use engine::Ready;
use memories::exchanges::Way;
use turns::turn::Turn;
use turns::{images, turn};

// Both programs were made ready. A scan of the old one over memory a and one of the new one over memory b, and how they compare with block and place
// exchanged back. If the new program is the old one after an accepted move, and memories and leftovers were alike with the ranges exchanged, then they
// answer alike and still are.
pub fn pair(
    old: &[u8],
    p: Ready,
    old_goes: &[usize; 2000],
    new: &[u8],
    q: Ready,
    new_goes: &[usize; 2000],
    a: &mut [u8; 16892],
    b: &mut [u8; 16892],
    w: Way,
    elapsed: u32,
    budget: u32,
) -> Turn
    requires made { Made old.now p × Goes old.now p old_goes.now }
    requires made_2 { Made new.now q × Goes new.now q new_goes.now }
    ensures paired { Paired old.now new.now elapsed budget (block w.start w.length) w.place a.old b.old result a.new b.new }
    ensures alike { MovedTo old.now (block w.start w.length) w.place new.now → plant_of b.old ≡ with_exchange (block w.start w.length) w.place (plant_of a.old) → Alike result × (plant_of b.new ≡ with_exchange (block w.start w.length) w.place (plant_of a.new)) }
{
    let one = turn::answer_of(crate::scan_ready(p, old_goes, old, a, 16892, elapsed, budget));
    let two = turn::answer_of(crate::scan_ready(q, new_goes, new, b, 16892, elapsed, budget));
    let first = images::apart(a, b, w);
    Turn {
        old: one,
        new: two,
        apart: first,
    }
}
