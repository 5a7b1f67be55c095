// The word instructions by their numbers.
ghost use Rattle.std.specs.Prelude.{◌≡◌, ◌<◌, ◌≤◌, ◌^◌};
ghost use Rattle.std.specs.Int.Signed.{mag};
ghost use Rattle.ec20.specs.Words.{compute_of};

use ec20::Outcome;

// What the word instruction n comes to, of its sources a and b. MOV and DMOV, and any other number, hand a on.
pub fn compute(n: usize, h: u64, a: i64, b: i64) -> Outcome
    requires { (h ≤ 2 ^ 31) × (mag a < h) × (mag b < h) }
    ensures { result ≡ compute_of n h a b }
{
    match n {
        33 | 49 => arith::add(a, b, h),
        34 | 50 => arith::sub(a, b, h),
        35 | 52 => arith::div(a, b, h),
        36 | 53 => arith::sqt(a),
        37 | 54 => arith::inc(a, h),
        38 | 55 => arith::dec(a, h),
        39 => arith::vabs(a, h),
        40 => arith::neg(a, h),
        51 => arith::mul(a, b, h),
        _ => arith::stored(a),
    }
}
