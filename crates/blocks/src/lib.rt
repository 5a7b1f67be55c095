// Block, pool and place of a move: refusals 10, 11, 12 and the exchange's 14, and the tests of numbers in a row that they and the mover share.
#![tactic(auto)]

ghost use Rattle.std.specs.Prelude.{◌<◌, ◌^◌, ◌≡◌};
ghost use Rattle.ec20.specs.Devices.{ec20};
ghost use Rattle.ec20.specs.Devices.{within as withinOf, meets as meetsOf, inside as insideOf};
ghost use Rattle.ec20.specs.Exchange.{place_fault};
ghost use Rattle.ec20.specs.Move.{block, pool, block_fault, pool_fault, block_work};

use ec20::Refusal;

// Number i is one of the n from a on.
#[tactic(auto, unfolding(ec20::specs::Devices::within))]
pub fn within(a: usize, n: usize, i: usize) -> bool
    requires { (a < 2 ^ 33) × (n < 2 ^ 33) }
    ensures { result ≡ withinOf a n i }
{
    (a <= i) & (i < a + n)
}

// The n from a on and the m from b on have one in common; neither is empty.
#[tactic(auto, unfolding(ec20::specs::Devices::meets))]
pub fn meets(a: usize, n: usize, b: usize, m: usize) -> bool
    requires { (a < 2 ^ 33) × (n < 2 ^ 33) × (b < 2 ^ 33) × (m < 2 ^ 33) }
    ensures { result ≡ meetsOf a n b m }
{
    (a < b + m) & (b < a + n)
}

// The n from a on are all among the m from b on.
#[tactic(auto, unfolding(ec20::specs::Devices::inside))]
pub fn inside(a: usize, n: usize, b: usize, m: usize) -> bool
    requires { (a < 2 ^ 33) × (n < 2 ^ 33) × (b < 2 ^ 33) × (m < 2 ^ 33) }
    ensures { result ≡ insideOf a n b m }
{
    (b <= a) & (a + n <= b + m)
}

// 10: the block is empty, or not inside D.
#[tactic(auto, unfolding(ec20::specs::Move::block_fault))]
pub fn block_fault(start: usize, length: usize) -> Result<(), Refusal>
    requires { (start < 2 ^ 32) × (length < 2 ^ 32) }
    ensures { result ≡ block_fault ec20 (block start length) }
{
    if (0 < length) & (start + length <= 8000) {
        Ok(())
    } else {
        Err(Refusal { number: 10, at: 0 })
    }
}

// 11: the pool's start is above its end, or its end above 8000.
#[tactic(auto, unfolding(ec20::specs::Move::pool_fault))]
pub fn pool_fault(start: usize, end: usize) -> Result<(), Refusal>
    ensures { result ≡ pool_fault ec20 (pool start end) }
{
    if (start <= end) & (end <= 8000) {
        Ok(())
    } else {
        Err(Refusal { number: 11, at: 0 })
    }
}

// 12: the block meets WORK.
#[tactic(auto, unfolding(ec20::specs::Move::block_work))]
pub fn block_work(start: usize, length: usize) -> Result<(), Refusal>
    requires { (start < 2 ^ 32) × (length < 2 ^ 32) }
    ensures { result ≡ block_work ec20 (block start length) }
{
    if faults::meets_work(start, length) {
        Err(Refusal { number: 12, at: 0 })
    } else {
        Ok(())
    }
}

// 14, of the exchange: the place is not inside D, meets the block or meets WORK.
#[tactic(auto, unfolding(ec20::specs::Exchange::place_fault))]
pub fn place_fault(start: usize, length: usize, place: usize) -> Result<(), Refusal>
    requires { (start < 2 ^ 32) × (length < 2 ^ 32) × (place < 2 ^ 32) }
    ensures { result ≡ place_fault ec20 (block start length) place }
{
    if (place + length <= 8000)
        & !meets(place, length, start, length)
        & !faults::meets_work(place, length)
    {
        Ok(())
    } else {
        Err(Refusal { number: 14, at: 0 })
    }
}
