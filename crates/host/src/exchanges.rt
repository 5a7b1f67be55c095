// The exchange.
ghost use Rattle.ec20.specs.Answers.{told_by_exchange};
ghost use Rattle.ec20.specs.Exchange.{exchange_of};
ghost use Rattle.ec20.specs.Move.{block};
ghost use Rattle.std.specs.Prelude.{◌≡◌};

// The words of a block and of a place of the same length change places in the D table: the number of the refusal (0: done) and the record told.
#[unsafe(no_mangle)]
pub extern "C" fn ninhalto_exchange(
    d: &mut [i16],
    start: u32,
    length: u32,
    place: u32,
    number: &mut usize,
    at: &mut usize,
)
    ensures d_after { d.new ≡ (exchange_of d.old (block start length) place).words }
    ensures number_after { number.new ≡ (told_by_exchange (exchange_of d.old (block start length) place).answer).number }
    ensures at_after { at.new ≡ (told_by_exchange (exchange_of d.old (block start length) place).answer).at }
{
    match exchange::exchange(d, start, length, place) {
        Ok(()) => {
            *number = 0;
            *at = 0;
        }
        Err(refusal) => {
            *number = refusal.number;
            *at = refusal.at;
        }
    }
}
