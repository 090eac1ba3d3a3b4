// sin(πx), by the sign and the magnitude: the exact rest of x by a half, times π in two parts, then one kernel.
// Promised: the bits of sin_pi_of for every x, +0 at every whole x. Measured error: below 0.78 ulp, and below 1 ulp of a subnormal.
ghost use Rattle.std.specs.Prelude.{◌≡◌};
ghost use Rattle.circular.specs.SinPi.{sin_pi_of};

use crate::kernel::sine_pi_at;
use crate::reduce::reduce_pi;
use crate::split::parted;
use machine::constants::not_a_number;

pub fn sin_pi(x: f64) -> f64
    ensures { result ≡ sin_pi_of x }
{
    let Some(parts) = parted(x) else {
        return not_a_number();
    };
    let angle = reduce_pi(parts.size);
    sine_pi_at(angle, angle.quarter + parts.turns)
}
