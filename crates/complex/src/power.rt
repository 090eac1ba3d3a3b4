// The square of a complex number, as a power: two products in a row, starting from 1. From num's powu.
// Promised: power_of of specs/Power.antt at 2. The first factor 1 counts: beside (1, 0) an imaginary part of -0 becomes +0.
ghost use Rattle.std.specs.Prelude.{◌≡◌};
ghost use Rattle.complex.specs.Power.{power_of};

use crate::number::Complex;

pub fn square(z: Complex) -> Complex
    ensures { result ≡ power_of z 2 }
{
    Complex::ONE * z * z
}
