// The exchange of the D table: the words of a block and of a place of the same length change places.
#![tactic(auto)]

ghost use Rattle.std.specs.Prelude.{◌<◌, ◌^◌, length, ◌≡◌};
ghost use Rattle.blocks.specs.Apart.{Apart};
ghost use Rattle.ec20.specs.Devices.{ec20};
ghost use Rattle.ec20.specs.Exchange.{exchanged, size_fault, judge_exchange, exchange_of};
ghost use Rattle.ec20.specs.Move.{block};

use ec20::Refusal;

// The n words of block and place change places, one after the other.
fn swap_blocks(d: &mut [i16], start: usize, n: usize, place: usize)
    requires { Apart ec20 (block start n) place × (length d.old ≡ 8000) }
    ensures { d.new ≡ exchanged (block start n) place d.old }
{
    for j in 0..n {
        d.swap(start + j, place + j);
    }
}

// 9: the table has not 8,000 words.
#[tactic(auto, unfolding(ec20::specs::Exchange::size_fault))]
fn size_fault(d: &[i16]) -> Result<(), Refusal>
    ensures { result ≡ size_fault ec20 d.now }
{
    if d.len() == 8000 {
        Ok(())
    } else {
        Err(Refusal { number: 9, at: 0 })
    }
}

// 9, 10, 12 and 14 in this order.
#[tactic(auto, unfolding(ec20::specs::Exchange::judge_exchange))]
fn judge(d: &[i16], start: usize, n: usize, place: usize) -> Result<(), Refusal>
    requires { (start < 2 ^ 32) × (n < 2 ^ 32) × (place < 2 ^ 32) }
    ensures { result ≡ judge_exchange ec20 d.now (block start n) place }
{
    size_fault(d)?;
    blocks::block_fault(start, n)?;
    blocks::block_work(start, n)?;
    blocks::place_fault(start, n, place)
}

// Block and place of equal length change places, for every table; or the exchange is refused, and the table left as it is.
#[tactic(auto, unfolding(ec20::specs::Exchange::exchange_of, ec20::specs::Exchange::exchange_for))]
pub fn exchange(d: &mut [i16], start: u32, length: u32, place: u32) -> Result<(), Refusal>
    ensures { record { answer = result; words = d.new } ≡ exchange_of d.old (block start length) place }
{
    let s = start as usize;
    let n = length as usize;
    let p = place as usize;
    judge(d, s, n, p)?;
    swap_blocks(d, s, n, p);
    Ok(())
}
