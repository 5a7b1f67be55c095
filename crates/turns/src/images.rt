// The bytes of memory files: compared, and their inputs drawn.
ghost use Rattle.std.specs.Prelude.{◌≤◌, length, ◌≡◌};
ghost use Rattle.ec20.specs.Move.{block};
ghost use Rattle.image.specs.Image.{plant_of, image_of};
ghost use Rattle.memories.specs.Images.{exchange_in};
ghost use Rattle.ec20.specs.Buffer.{sent};
ghost use Rattle.turns.specs.Turns.{FirstApart, turned_by, state_after, drawn};

use memories::exchanges;
use memories::exchanges::Way;

// The first byte at which they differ, if one does.
fn first_apart(a: &[u8; 16892], b: &[u8; 16892]) -> Option<usize>
    ensures { FirstApart a.now b.now result }
{
    for i in 0..16892 {
        if a[i] != b[i] {
            return Some(i);
        }
    }
    None
}

// The same of memory a, and memory b with block and place exchanged back.
pub fn apart(a: &[u8; 16892], b: &[u8; 16892], w: Way) -> Option<usize>
    ensures { FirstApart a.now (image_of (exchange_in 16892 (block w.start w.length) w.place (plant_of b.now)).plant) result }
{
    let mut back = *b;
    let _ = exchanges::in_image(&mut back, 16892, w);
    first_apart(a, &back)
}

// The state after a draw, whose highest byte is drawn.
#[tactic(auto, unfolding(crate::specs::Turns::turned_by))]
fn turned(s: u32) -> u32
    ensures { result ≡ turned_by s }
{
    ((u64::from(s) * 1664525 + 1013904223) % 4294967296) as u32
}

// Both are long enough for the inputs.
fn draw(a: &mut [u8], b: &mut [u8], state: u32) -> u32
    requires { (32 ≤ length a.old) × (32 ≤ length b.old) }
    ensures value { result ≡ state_after 32 state }
    ensures a_after { a.new ≡ sent (drawn 32 state) a.old }
    ensures b_after { b.new ≡ sent (drawn 32 state) b.old }
{
    let mut s = state;
    for i in 0..32 {
        s = turned(s);
        let v = (s / 16777216) as u8;
        a[i] = v;
        b[i] = v;
    }
    s
}

// The inputs of a scan, the same for both memories: one draw for each byte of X. Answers the state after them.
pub fn draw_inputs(a: &mut [u8; 16892], b: &mut [u8; 16892], state: u32) -> u32
    ensures value { result ≡ state_after 32 state }
    ensures a_after { a.new ≡ sent (drawn 32 state) a.old }
    ensures b_after { b.new ≡ sent (drawn 32 state) b.old }
{
    draw(a, b, state)
}
