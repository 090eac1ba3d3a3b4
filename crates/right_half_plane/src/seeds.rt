// The seed stage: K at the order's fraction and one above it, by Temme's sum for |z| to 2, by Miller's steps above, by neither at a fraction of ±½.
// From src/amos/right_half_plane.rs, k_right_half_plane (ZBKNU). Promised: seed_of of specs/Seeds.antt.
ghost use Rattle.std.specs.Prelude.{◌≡◌};
ghost use Rattle.std.specs.Float.Ieee.{le};
ghost use Rattle.machine.specs.Small.{two};
ghost use Rattle.complex.specs.Functions.{modulus_of};
ghost use Rattle.right_half_plane.specs.Seeds.{seed_of};

use crate::by_miller::is_half;
use crate::ground::Ground;
use complex::number::Complex;
use machine::magnitude::magnitude;
use recurrence::state::OverflowState;
use refusal::refusal::Refusal;

// One finished value, or a pair of neighbouring seeds.
#[derive(Clone, Copy)]
pub enum Seeds {
    Finished(Complex),
    Pair(Complex, Complex),
}

// Beside them the state of their scale, whether they stand without e^-z, the terms of Temme's sum and Miller's backward steps. That they stand without it
// is told by the state NearUnder too; the field stays, since climb_taken of specs/Refusals.antt, which climb-exactly rests on, reads it.
#[derive(Clone, Copy)]
pub struct Seeded {
    pub seeds: Seeds,
    pub state: OverflowState,
    pub underflow: bool,
    pub terms: u32,
    pub backward: u32,
}

// Whether the modulus is at most 2. The parts are there before the modulus is, and mostly tell. That the modulus is that of z is asked for by clauses,
// here, in `seed`, in k_right_half_plane (kernel.rt) and in by_kernel of crate bessel, and is no fact of Ground: the theorems about ground_of take any
// two numbers.
fn within_two(z: Complex, modulus: f64) -> bool
    requires { modulus ≡ modulus_of z }
    ensures { result ≡ le modulus two }
{
    let re = magnitude(z.re);
    let im = magnitude(z.im);
    if re <= 1.40625 && im <= 1.40625 {
        return true;
    }
    if re > 2.25 || im > 2.25 {
        return false;
    }
    modulus <= 2.0
}

impl Ground {
    // Temme's sum is for |z| to 2, at a fraction other than ±½.
    #[tactic(auto, unfolding(crate::specs::Seeds::seed_of, crate::specs::Seeds::is_near))]
    pub fn seed(self, scaled: bool) -> Result<Seeded, Refusal>
        requires { self.modulus ≡ modulus_of self.z }
        ensures { result ≡ seed_of self scaled }
    {
        if !is_half(self.fraction) && within_two(self.z, self.modulus) {
            return Ok(self.temme_seeds(scaled));
        }
        self.other_seeds(scaled)
    }
}
