// A first root by f64 steps: of a significand brought to [1, 4), a quadratic from a table of 128 pieces and one Heron step.
// Own design. Promised: equal to its definition, step by step; the seed's square is within one part in 2^25 of the argument.
ghost use Rattle.std.specs.Prelude.{◌≡◌, ◌<◌, ◌^◌};
ghost use Rattle.roots.specs.Seed.{seed_of, twice_root};

use roots_tables::tables::quadratic_of;

// w is how far the argument's pattern is above that of 1; each piece has 2^46 patterns.
fn seed(w: u64) -> f64
    requires { w < 2 ^ 53 }
    ensures { result ≡ seed_of w }
{
    let q = quadratic_of(w / 0x0000400000000000);
    let d = f64::from_bits(w + 0x3FF0000000000000)
        - f64::from_bits(w - w % 0x0000400000000000 + 0x3FF0000000000000);
    q.constant + q.slope * d - q.bend * d * d
}

// An even power of two is taken off the exponent of the pattern u, so that what is left lies in [1, 4).
pub fn twice_root(u: u64) -> f64
    ensures { result ≡ twice_root u }
{
    let w = (u % 0x0020000000000000 + 0x0010000000000000) % 0x0020000000000000;
    let f = f64::from_bits(w + 0x3FF0000000000000);
    let s = seed(w);
    s + f / s
}
