// e^x: x = 8(i-88) + (j/32 - 4 - 1/64) + g with g from 0 to 1/32, exactly, so that e^x is a coarse power times a fine one times 1 +
// growth(g). Own design after the table method; no term is below 0. Promised: exp_of for every x; finite and above 0 up to 705 in magnitude
// (proofs/ExpFacts.antt). Measured: 0.573 units in the last place up to 705, 1.1 beyond, subnormal results included.
ghost use Rattle.std.specs.Prelude.{◌≡◌, false, T};
ghost use Rattle.std.specs.Float.Ieee.{le, lt, of_bits};
ghost use Rattle.std.specs.Float.{binary64};
ghost use Rattle.exponential.specs.Exp.{limit, lower_limit, growth, product, exp_pair, square, total, exp_far, exp_of, half_exp_far};

use exponential_tables::tables::{coarse, fine};
use machine::constants::not_a_number;
use machine::pair::Pair;

// 1.5 * 2^47: a sum with it has 1/32 for its last digit
const SHIFT: f64 = 211106232532992.0;
// the bits of SHIFT, less 32 * 708
const FIRST: u64 = 0x42E7FFFFFFFFA780;

// 2^-500, which keeps a large square in range
const SHRINK: f64 = 3.054936363499605e-151;
// 2^500, twice the way back from SHRINK
const STRETCH: f64 = 3.273390607896142e150;
// 2^499, the second half of that way for half of the square
const HALF_STRETCH: f64 = 1.636695303948071e150;
// 2^520, which keeps a small square in range
const RAISE: f64 = 3.432398830065305e156;
// 2^-520, twice the way back from RAISE
const LOWER: f64 = 2.913414348125081e-157;

pub fn exp(x: f64) -> f64
    ensures { result ≡ exp_of x }
{
    if -705.0 <= x {
        if x <= 705.0 {
            return sum_of(exp_pair(x));
        }
    }
    exp_far(x)
}

fn sum_of(p: Pair) -> f64
    ensures { result ≡ total p }
{
    p.hi + p.lo
}

// e^x before its last rounding, which sinh and cosh put off.
pub fn exp_pair(x: f64) -> Pair
    requires t { T (le lower_limit x) }
    requires t_2 { T (le x limit) }
    ensures { result ≡ exp_pair x }
{
    let t = x + SHIFT;
    let n = (f64::to_bits(t) - FIRST) as usize;
    let g = (x - (t - SHIFT)) + 0.015625;
    let i = n / 256;
    let j = n % 256;
    multiplied(coarse(i), fine(j), grown(g))
}

// e^g - 1. The coefficients are fitted to the range, so that none is 1/k! exactly.
fn grown(g: f64) -> f64
    ensures { result ≡ growth g }
{
    let z = g * g;
    let top = (0.04166668119235201 + g * 0.008332541562980684) + z * 0.0014092255710271141;
    g + z * ((0.5000000000003804 + g * 0.1666666665430788) + z * top)
}

// The leading product of 26 by 26 digits is exact: the rest carries every rounding but the last.
fn multiplied(e: Pair, f: Pair, q: f64) -> Pair
    ensures { result ≡ product e f q }
{
    let ph = e.hi * f.hi;
    let pl = e.hi * f.lo + e.lo * (f.hi + f.lo);
    Pair {
        hi: ph,
        lo: pl + (ph + pl) * q,
    }
}

// The square of hi + lo on a scale where nothing underflows, brought back by two factors: the last product is the one that can round
// into the subnormal numbers or overflow.
fn squared(p: Pair, scale: f64, first: f64, second: f64) -> f64
    ensures { result ≡ square p scale first second }
{
    let s = p.hi + p.lo;
    let c = s * scale;
    let d = ((p.hi - s) + p.lo) * scale;
    ((c * c + (c + c) * d) * first) * second
}

fn exp_far(x: f64) -> f64
    ensures { result ≡ exp_far x }
{
    if x != x {
        return not_a_number();
    }
    if x > 710.0 {
        return 1.0 / 0.0;
    }
    if x < -746.0 {
        return 0.0;
    }
    let p = exp_pair(0.5 * x);
    if x > 0.0 {
        return squared(p, SHRINK, STRETCH, STRETCH);
    }
    squared(p, RAISE, LOWER, LOWER)
}

// Half of e^a, for sinh and cosh: the halving is in the last factor, since e^a itself overflows earlier.
pub fn half_exp_far(a: f64) -> f64
    requires { lt a (of_bits binary64 0x3FF0000000000000) ≡ false }
    ensures { result ≡ half_exp_far a }
{
    if a != a {
        return not_a_number();
    }
    if a > 711.0 {
        return 1.0 / 0.0;
    }
    squared(exp_pair(0.5 * a), SHRINK, STRETCH, HALF_STRETCH)
}
