// An angle without a minus sign brought to hi + lo of at most about π/4 and a number of quarter turns, in radians and in half turns.
// The nearest whole number comes from an addition to 2^52, whose unit is 1, and the quarter turns from the sum's last bits.
// Promised: the bits of the definitions for every argument.
ghost use Rattle.std.specs.Prelude.{◌≡◌};
ghost use Rattle.circular.specs.Reduce.{quarters_of, reduce_of, halves_of, reduce_pi_of};

use crate::remainder::remainder;
use machine::bits::{leading_digits, pattern};

// The two parts are no `Pair` in a field of their own: the definitions and their theorems would read `r.rest.hi` where they read `r.hi`.
#[derive(Clone, Copy)]
pub struct Reduced {
    pub hi: f64,
    pub lo: f64,
    // quarter turns, counted to 4
    pub quarter: u64,
}

// π/2 in parts of 36, 36 and 53 digits: a whole number up to 2^17 times either of the first two is exact.
const TWO_OVER_PI: f64 = 0.6366197723675814;

const HALF_PI_HIGH: f64 = 1.5707963267923333;

const HALF_PI_MIDDLE: f64 = 2.5633441515839558e-12;

const HALF_PI_LOW: f64 = 1.0562999066987428e-23;
// 29 turns
const TURNS: f64 = 182.212373908208;
// π in parts of 26 and 53 digits, and whole
const PI_HIGH: f64 = 3.1415926814079285;

const PI_LOW: f64 = -2.7818135228334233e-08;

const PI: f64 = 3.141592653589793;
// 2^52
const SHIFT: f64 = 4503599627370496.0;

fn quarters(a: f64) -> Reduced
    ensures { result ≡ quarters_of a }
{
    let t = a * TWO_OVER_PI + SHIFT;
    let k = t - SHIFT;
    let high = a - k * HALF_PI_HIGH;
    let w = k * HALF_PI_MIDDLE;
    let r = high - w;
    let e = high - r - w - k * HALF_PI_LOW;
    let hi = r + e;
    let lo = r - hi + e;
    let quarter = pattern(t) % 4;
    Reduced { hi, lo, quarter }
}

pub fn reduce(a: f64) -> Reduced
    ensures { result ≡ reduce_of a }
{
    if a < 0.78125 {
        return Reduced {
            hi: a,
            lo: 0.0,
            quarter: 0,
        };
    }
    // each way has its own call, so that the rest is worked out only where it is wanted
    if a > 65536.0 {
        return quarters(remainder(a, TURNS));
    }
    quarters(a)
}

fn halves(a: f64) -> Reduced
    ensures { result ≡ halves_of a }
{
    let t = 2.0 * a + SHIFT;
    let r = a - 0.5 * (t - SHIFT);
    // where a is no number or infinite, r is no number, and has no digits
    let h = if r != r { r } else { leading_digits(r) };
    let p = h * PI_HIGH;
    let q = h * PI_LOW + (r - h) * PI;
    let hi = p + q;
    let lo = p - hi + q;
    let quarter = pattern(t) % 4;
    Reduced { hi, lo, quarter }
}

// Of π a.
pub fn reduce_pi(a: f64) -> Reduced
    ensures { result ≡ reduce_pi_of a }
{
    // A zero has nothing to take off. The two other ways have a call each, as above; with no third way beside them the compiler would join
    // the two calls into one, and take whole turns off every angle.
    if a == 0.0 {
        return Reduced {
            hi: 0.0,
            lo: 0.0,
            quarter: 0,
        };
    }
    if a > 1048576.0 {
        return halves(remainder(a, 2.0));
    }
    halves(a)
}
