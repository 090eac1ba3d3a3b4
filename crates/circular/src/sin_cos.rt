// sin x and cos x together: one reduction and both kernels.
// Promised: the bits of sin_cos_of for every x.
ghost use Rattle.std.specs.Prelude.{◌≡◌};
ghost use Rattle.circular.specs.SinCos.{sin_cos_of};

use crate::kernel::{cosine, sine};
use crate::reduce::reduce;
use crate::split::parted;
use machine::constants::not_a_number;

#[derive(Clone, Copy)]
pub struct SinCos {
    pub sin: f64,
    pub cos: f64,
}

pub fn sin_cos(x: f64) -> SinCos
    ensures { result ≡ sin_cos_of x }
{
    let Some(parts) = parted(x) else {
        return SinCos {
            sin: not_a_number(),
            cos: not_a_number(),
        };
    };
    let angle = reduce(parts.size);
    let s = sine(angle.hi, angle.lo);
    let c = cosine(angle.hi, angle.lo);
    // the sines of the angle and of one, two and three quarter turns further on
    let turned = [s, c, -s, -c];
    let quarter = angle.quarter as usize;
    let here = (quarter + parts.turns as usize) % 4;
    let next = (quarter + 1) % 4;
    let sin = turned[here];
    let cos = turned[next];
    SinCos { sin, cos }
}
