// What one K call works out once and its stages share: 2/z, the order's nearest whole number r, the fraction and its square.
// From src/amos/right_half_plane.rs, k_right_half_plane. Promised: specs/Ground.antt, for every order from 0 to 1,000.
ghost use Rattle.std.specs.Prelude.{◌≡◌, T};
ghost use Rattle.std.specs.Float.Ieee.{le};
ghost use Rattle.laws.proofs.Relative.{nonnegative};
ghost use Rattle.call.specs.Limits.{largest_order};
ghost use Rattle.right_half_plane.specs.Ground.{ground_of, is_alone};

use complex::number::Complex;
use rounding::round::round;
use temme::difference::fraction_square;

// `scaled`, which goes with it into the seed stage, is no field of it: ground_of of specs/Ground.antt, which the theorems name, is without it.
#[derive(Clone, Copy)]
pub struct Ground {
    pub z: Complex,
    pub modulus: f64,
    pub two_over_z: Complex,
    pub order: f64,
    pub nearest: u32,
    pub fraction: f64,
    pub square: f64,
    pub count: u32,
}

// The order, z and its modulus come apart, here and in kernel.rt, as ground_of and kernel_of take them: the theorems start-exactly and climb-exactly are
// about any three. Arguments, which holds three, is of crate bessel, above this one. So the order's range is asked for by clauses, here and there.
pub fn prepare(order: f64, z: Complex, modulus: f64, count: u32) -> Ground
    requires { T (nonnegative order) × T (le order largest_order) }
    ensures { result ≡ ground_of order z modulus count }
{
    let whole = round(order);
    let fraction = order - whole;
    Ground {
        z,
        modulus,
        two_over_z: z.two_over_with(modulus),
        order,
        nearest: whole as u32,
        fraction,
        square: fraction_square(fraction),
        count,
    }
}

impl Ground {
    // the one value asked for is the first seed's own
    #[tactic(auto, unfolding(crate::specs::Ground::is_alone))]
    pub fn is_alone(self) -> bool
        ensures { result ≡ is_alone self }
    {
        self.nearest == 0 && self.count == 1
    }
}
