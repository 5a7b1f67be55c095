// A map of D words, one bit for each, packed eight to a byte, the lowest number in the lowest bit. A word that the map does not have is never
// marked, and a mark there changes nothing, so that no function here asks its words to be in the map.
#![tactic(auto)]

ghost use Rattle.std.specs.Prelude.{◌+◌, ◌<◌, ◌^◌, ◌≡◌};
ghost use Rattle.marks.specs.Marked.{marked, marking, marking_held};

use ec20::{Operand, Place};

// Word i is marked.
#[tactic(auto, unfolding(crate::specs::Marked::marked))]
pub fn is_marked(map: &[u8; 1000], i: usize) -> bool
    ensures { result ≡ marked map.now i }
{
    bits::bit_at(map, i) == 1
}

// The `extent` words from `start` on are marked.
fn mark(map: &mut [u8; 1000], start: usize, extent: usize)
    requires { start + extent < 2 ^ 64 }
    ensures { map.new ≡ marking map.old start extent }
{
    for k in 0..extent {
        bits::put_bit(map, start + k, 1);
    }
}

// The words that the operand's extent at this place holds are marked: it holds some only if it names words in D.
#[tactic(auto, unfolding(crate::specs::Marked::marking_held))]
pub fn mark_held(map: &mut [u8; 1000], p: Place, o: Operand)
    requires { o.value < 2 ^ 32 }
    ensures { map.new ≡ marking_held map.old p o }
{
    if extents::in_d(o) {
        mark(map, extents::start(o), extents::length(p, o));
    }
}
