// cos x, by the magnitude: reduced to hi + lo and quarter turns, then one kernel (own reduction, fdlibm's kernels).
// Promised: the bits of cos_of for every x. Measured error: below 0.78 ulp up to 32,769 in magnitude.
ghost use Rattle.std.specs.Prelude.{◌≡◌};
ghost use Rattle.circular.specs.Cos.{cos_of};

use crate::kernel::sine_at;
use crate::reduce::reduce;
use crate::split::parted;
use machine::constants::not_a_number;

pub fn cos(x: f64) -> f64
    ensures { result ≡ cos_of x }
{
    let Some(parts) = parted(x) else {
        return not_a_number();
    };
    let angle = reduce(parts.size);
    // the cosine is the sine a quarter turn further on
    sine_at(angle, angle.quarter + 1)
}
