// The move.
ghost use Rattle.ec20.specs.Answers.{told_by_move};
ghost use Rattle.ec20.specs.Move.{block, pool, move_of};
ghost use Rattle.std.specs.Prelude.{◌≡◌};

// The move of a block of the file f to the lowest place in the pool: the number of the refusal (0: moved) and the record told, and the place's
// start (0: refused).
#[unsafe(no_mangle)]
pub extern "C" fn ninhalto_move(
    f: &mut [u8],
    start: u32,
    length: u32,
    from: u32,
    end: u32,
    number: &mut usize,
    at: &mut usize,
    place: &mut usize,
)
    ensures f_after { f.new ≡ (move_of f.old (block start length) (pool from end)).file }
    ensures number_after { number.new ≡ (told_by_move (move_of f.old (block start length) (pool from end)).answer).number }
    ensures at_after { at.new ≡ (told_by_move (move_of f.old (block start length) (pool from end)).answer).at }
    ensures place_after { place.new ≡ (told_by_move (move_of f.old (block start length) (pool from end)).answer).place }
{
    match mover::move_block(f, start, length, from, end) {
        Ok(q) => {
            *number = 0;
            *at = 0;
            *place = q;
        }
        Err(refusal) => {
            *number = refusal.number;
            *at = refusal.at;
            *place = 0;
        }
    }
}
