// (1/Γ(1-ν) - 1/Γ(1+ν)) / 2ν for a small ν, by its Taylor series in ν²: eight coefficients, up to the first term below 2^-52 in magnitude.
// From src/amos/right_half_plane.rs, compute_small_z_power_series (ZBKNU's CC). Promised for every f64: specs/Difference.antt.
// For |ν| to 0.1 the test ends it within seven terms (proofs/DifferenceBound.antt).
ghost use Rattle.std.specs.Prelude.{◌≡◌};
ghost use Rattle.temme.specs.Difference.{fraction_square, series_of, difference_of};

use machine::constants::Machine;
use machine::magnitude::{magnitude, outside};

const COEFFICIENTS: [f64; 8] = [
    0.5772156649015329,
    -0.04200263503409524,
    -0.04219773455554433,
    0.0072189432466631,
    -0.00021524167411495098,
    -2.013485478078824e-05,
    1.133027231981696e-06,
    6.116095104481416e-09,
];

// A sum under way: the power of its next term, whether the last term was below 2^-52, and how many terms are in it.
#[derive(Clone, Copy)]
pub struct Partial {
    pub power: f64,
    pub sum: f64,
    pub done: bool,
    pub count: usize,
}

fn series(square: f64) -> Partial
    ensures { result ≡ series_of square }
{
    let mut s = Partial {
        power: 1.0,
        sum: 0.0,
        done: false,
        count: 0,
    };
    for coefficient in COEFFICIENTS {
        let term = coefficient * s.power;
        s = Partial {
            power: s.power * square,
            sum: s.sum + term,
            done: magnitude(term) < Machine::TOLERANCE,
            count: s.count + 1,
        };
        if s.done {
            break;
        }
    }
    s
}

pub fn difference(square: f64) -> f64
    ensures { result ≡ difference_of square }
{
    -series(square).sum
}

// ν², and 0 where |ν| is at most 2^-52
pub fn fraction_square(fraction: f64) -> f64
    ensures { result ≡ fraction_square fraction }
{
    if outside(Machine::TOLERANCE, fraction) {
        return fraction * fraction;
    }
    0.0
}
