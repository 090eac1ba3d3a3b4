// Whether a value kept on scale is lost once it is scaled back: its smaller part would underflow within the digits of its larger one.
// From src/amos/utils.rs, will_underflow (ZUCHK). Promised: lost_of of specs/Lost.antt; never with a not-a-number part.
ghost use Rattle.std.specs.Prelude.{◌≡◌};
ghost use Rattle.complex.specs.Lost.{lost_beside, lost_of};

use crate::number::Complex;
use machine::constants::Machine;
use machine::magnitude::magnitude;

fn lost_beside(smaller: f64, larger: f64) -> bool
    ensures { result ≡ lost_beside smaller larger }
{
    smaller <= Machine::ABSOLUTE_APPROXIMATION_LIMIT
        && larger < smaller * Machine::INVERSE_TOLERANCE
}

pub fn lost(z: Complex) -> bool
    ensures { result ≡ lost_of z }
{
    let re = magnitude(z.re);
    let im = magnitude(z.im);
    if im < re {
        return lost_beside(im, re);
    }
    lost_beside(re, im)
}
