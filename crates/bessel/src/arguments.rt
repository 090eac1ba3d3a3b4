// The arguments of a call as the kernels take them: no -0 in the order and the real part, and the modulus, worked out once.
// From docs/SCOPE.md, Domain and refusals. Promised: arguments_of of specs/Arguments.antt, for every f64.
ghost use Rattle.std.specs.Prelude.{◌≡◌};
ghost use Rattle.bessel.specs.Arguments.{arguments_of};

use call::limits::normalised;
use complex::number::Complex;

#[derive(Clone, Copy)]
pub struct Arguments {
    pub order: f64,
    pub z: Complex,
    pub modulus: f64,
}

// The three numbers come apart, here and in `i`, `k` and series_call, as arguments_of takes them: docs/TRACE.md (M3) quotes the signatures of `i` and `k`.
#[tactic(auto, unfolding(crate::specs::Arguments::arguments_of))]
pub fn prepare(v: f64, re: f64, im: f64) -> Arguments
    ensures { result ≡ arguments_of v re im }
{
    let z = Complex {
        re: normalised(re),
        im,
    };
    Arguments {
        order: normalised(v),
        z,
        modulus: z.modulus(),
    }
}
