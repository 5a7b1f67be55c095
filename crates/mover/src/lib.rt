// The move of a block of D words: the lowest place in the pool, and the program renamed in the file where it is lent.
#![tactic(auto)]

ghost use Rattle.std.specs.Prelude.{◌<◌, ◌^◌, length, ◌≡◌};
ghost use Rattle.ec20.specs.Devices.{ec20};
ghost use Rattle.ec20.specs.File.{records_from};
ghost use Rattle.ec20.specs.Move.{block, pool, judge_move, move_of};
ghost use Rattle.records.specs.Ranges.{Held};

use ec20::{Frame, Refusal};

// 10, 11, 12 and 13 in this order, of `count` records from the byte `first` on.
#[tactic(auto, unfolding(ec20::specs::Move::judge_move))]
pub fn judge(
    f: &[u8],
    first: usize,
    count: usize,
    start: usize,
    n: usize,
    from: usize,
    end: usize,
) -> Result<(), Refusal>
    requires { Held (length f.now) first count × (start < 2 ^ 32) × (n < 2 ^ 32) }
    ensures { result ≡ judge_move ec20 (records_from f.now first count) (block start n) (pool from end) }
{
    blocks::block_fault(start, n)?;
    blocks::pool_fault(from, end)?;
    blocks::block_work(start, n)?;
    splits::first_split(f, first, count, start, n)
}

// The move of a block of a file to the lowest place in the pool, for every file; or it is refused, and the file left as it is.
pub fn move_block(
    file: &mut [u8],
    start: u32,
    length: u32,
    pool_start: u32,
    pool_end: u32,
) -> Result<usize, Refusal>
    ensures { record { answer = result; file = file.new } ≡ move_of file.old (block start length) (pool pool_start pool_end) }
{
    let s = start as usize;
    let n = length as usize;
    let from = pool_start as usize;
    let end = pool_end as usize;
    let Frame { first, count } = checker::accept(file)?;
    judge(file, first, count, s, n, from, end)?;
    let Some(q) = places::place(file, first, count, s, n, from, end) else {
        return Err(Refusal { number: 14, at: 0 });
    };
    rewrite::move_numbers(file, first, count, s, n, q);
    Ok(q)
}
