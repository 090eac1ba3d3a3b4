// Stirling's series c0/z + c1/z^3 + c2/z^5 + .., DLMF 5.11.1, as src/amos/gamma_ln.rs (DGAMLN) sums it: to the first term below 2^-52 of
// the first. Promised: specs/Series.antt, the count of summed terms with it; from 6.5 on the test ends it within the 22 coefficients.
ghost use Rattle.std.specs.Prelude.{◌≡◌};
ghost use Rattle.gamma_ln.specs.Series.{is_below, series_of, further_of};

use crate::coefficients::COEFFICIENTS;
use machine::constants::Machine;

// A sum under way: the power of 1/z of its last term, the sum, and how many terms are in it.
#[derive(Clone, Copy)]
pub struct Terms {
    pub power: f64,
    pub sum: f64,
    pub count: u32,
}

pub fn series(z: f64) -> Terms
    ensures { result ≡ series_of z }
{
    let power = 1.0 / z;
    let first = COEFFICIENTS[0] * power;
    if power >= Machine::TOLERANCE {
        further(power, first, power * power, first * Machine::TOLERANCE)
    } else {
        Terms {
            power,
            sum: first,
            count: 1,
        }
    }
}

fn is_below(term: f64, bound: f64) -> bool
    ensures { result ≡ is_below term bound }
{
    term < bound && term > -bound
}

fn further(start: f64, first: f64, square: f64, bound: f64) -> Terms
    ensures { result ≡ further_of start first square bound }
{
    let coefficients = COEFFICIENTS;
    let mut power = start;
    let mut sum = first;
    for count in 1..22 {
        let next = power * square;
        let term = coefficients[count as usize] * next;
        if is_below(term, bound) {
            return Terms { power, sum, count };
        }
        power = next;
        sum += term;
    }
    Terms {
        power,
        sum,
        count: 22,
    }
}
