// The hyperbolic sine: an odd polynomial below 1, (e^a - e^-a) / 2 by exp's pair up to 705, half of e^a beyond; the sign is taken off and
// put back. DLMF 4.28.1. Promised: sinh_of for every x; odd; finite up to 705 in magnitude (proofs/SinhFacts.antt). Measured: 0.822 units in
// the last place up to 705, 1.1 beyond.
ghost use Rattle.std.specs.Prelude.{◌≡◌};
ghost use Rattle.exponential.specs.Sinh.{sinh_small, half_difference, sinh_of};

use crate::by_magnitude::by_magnitude;
use machine::constants::not_a_number;
use machine::magnitude::magnitude;
use machine::pair::Pair;

const C3: f64 = 0.16666666666666666;

const C5: f64 = 0.008333333333333567;

const C7: f64 = 0.00019841269841110008;

const C9: f64 = 2.755731926476937e-06;

const C11: f64 = 2.5052105469960146e-08;

const C13: f64 = 1.6058657399468799e-10;

const C15: f64 = 7.71610008115315e-13;

pub fn sinh(x: f64) -> f64
    ensures { result ≡ sinh_of x }
{
    if x != x {
        return not_a_number();
    }
    let minus = x.is_sign_negative();
    let r = by_magnitude(magnitude(x), sinh_small, half_difference);
    if minus { -r } else { r }
}

// a + a^3 p(a^2), the coefficients fitted to the range.
fn sinh_small(a: f64) -> f64
    ensures { result ≡ sinh_small a }
{
    let z = a * a;
    let w = z * z;
    let top = (C11 + z * C13) + w * C15;
    let p = (C3 + z * C5) + w * ((C7 + z * C9) + w * top);
    a + (a * z) * p
}

fn half_difference(p: Pair) -> f64
    ensures { result ≡ half_difference p }
{
    0.5 * (p.hi + (p.lo - 1.0 / (p.hi + p.lo)))
}
