// sin x, by the sign and the magnitude: reduced to hi + lo and quarter turns, then one kernel (own reduction, fdlibm's kernels).
// Promised: the bits of sin_of for every x. Measured error: below 0.79 ulp up to 32,769 in magnitude.
ghost use Rattle.std.specs.Prelude.{◌≡◌};
ghost use Rattle.circular.specs.Sin.{sin_of};

use crate::kernel::sine_at;
use crate::reduce::reduce;
use crate::split::parted;
use machine::constants::not_a_number;

pub fn sin(x: f64) -> f64
    ensures { result ≡ sin_of x }
{
    let Some(parts) = parted(x) else {
        return not_a_number();
    };
    let angle = reduce(parts.size);
    sine_at(angle, angle.quarter + parts.turns)
}
