// The hyperbolic cosine: an even polynomial below 1, (e^a + e^-a) / 2 by exp's pair up to 705, half of e^a beyond; the sign is taken off.
// DLMF 4.28.2. Promised: cosh_of for every x; even; finite up to 705 in magnitude (proofs/CoshFacts.antt).
// Measured: 0.78 units in the last place up to 705, 1.1 beyond.
ghost use Rattle.std.specs.Prelude.{◌≡◌};
ghost use Rattle.exponential.specs.Cosh.{cosh_small, half_sum, cosh_of};

use crate::by_magnitude::by_magnitude;
use machine::constants::not_a_number;
use machine::magnitude::magnitude;
use machine::pair::Pair;

const C4: f64 = 0.041666666666666644;

const C6: f64 = 0.0013888888888905781;

const C8: f64 = 2.48015872818337e-05;

const C10: f64 = 2.7557327656304784e-07;

const C12: f64 = 2.087513148353529e-09;

const C14: f64 = 1.1614988062048244e-11;

pub fn cosh(x: f64) -> f64
    ensures { result ≡ cosh_of x }
{
    // what follows would give the same; with the test made here, the magnitude of every other value is one operation
    if x != x {
        return not_a_number();
    }
    by_magnitude(magnitude(x), cosh_small, half_sum)
}

// 1 + h rounds; what it lost comes back in the second term.
fn cosh_small(a: f64) -> f64
    ensures { result ≡ cosh_small a }
{
    let z = a * a;
    let w = z * z;
    let p = (C4 + z * C6) + w * ((C8 + z * C10) + w * (C12 + z * C14));
    let h = 0.5 * z;
    let s = 1.0 + h;
    s + (((1.0 - s) + h) + w * p)
}

fn half_sum(p: Pair) -> f64
    ensures { result ≡ half_sum p }
{
    0.5 * (p.hi + (p.lo + 1.0 / (p.hi + p.lo)))
}
