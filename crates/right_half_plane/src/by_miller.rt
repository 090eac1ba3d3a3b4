// Seeds above |z| = 2 and at a fraction of ±½: a coefficient, which is both seeds at ±½, and Miller's steps at any other fraction.
// From src/amos/right_half_plane.rs, k_right_half_plane (ZBKNU). Promised: other_seeds of specs/ByMiller.antt. The modulus, its root and the angle are
// not worked out again.
ghost use Rattle.std.specs.Prelude.{◌≡◌};
ghost use Rattle.right_half_plane.specs.ByMiller.{is_half, rotation_of, order_of, point_with, is_far, coefficient_of, far_state};
ghost use Rattle.right_half_plane.specs.ByMiller.{miller_seeds, half_seeds, other_seeds};

use crate::ground::Ground;
use crate::seeds::{Seeded, Seeds};
use circular::cos_pi::cos_pi;
use complex::functions::at_half_angle;
use complex::number::{Complex, real_over};
use machine::constants::Machine;
use machine::magnitude::magnitude;
use miller::point::{Order, Point, at, is_real};
use miller::search::search;
use miller::seeds::{Miller, seeds_at};
use recurrence::state::OverflowState;
use refusal::refusal::Refusal;
use roots::sqrt::sqrt;

// the fraction is ±½
#[tactic(auto, unfolding(crate::specs::ByMiller::is_half))]
pub fn is_half(fraction: f64) -> bool
    ensures { result ≡ is_half fraction }
{
    magnitude(fraction) == 0.5
}

// 1 at the fraction 0, with nothing to work out
fn rotation(fraction: f64) -> f64
    ensures { result ≡ rotation_of fraction }
{
    if fraction == 0.0 {
        return 1.0;
    }
    magnitude(cos_pi(fraction))
}

#[tactic(auto, unfolding(crate::specs::ByMiller::order_of))]
fn order_of(fraction: f64, square: f64) -> Order
    ensures { result ≡ order_of fraction square }
{
    Order {
        fraction,
        square,
        rotation: rotation(fraction),
        distance: magnitude(0.25 - square),
    }
}

// the real path takes the real part for the modulus, and asks for no angle
#[tactic(auto, unfolding(crate::specs::ByMiller::point_with))]
fn point_with(z: Complex, modulus: f64, root: f64, angle: f64) -> Point
    ensures { result ≡ point_with z modulus root angle }
{
    if is_real(z) {
        return at(z);
    }
    Point {
        z,
        modulus,
        root,
        angle,
    }
}

// e^-z would underflow: the seeds stay without it
#[tactic(auto, unfolding(crate::specs::ByMiller::is_far, machine::specs::Constants::approximation_limit))]
fn is_far(scaled: bool, z: Complex) -> bool
    ensures { result ≡ is_far scaled z }
{
    !scaled && z.re > Machine::APPROXIMATION_LIMIT
}

// the square root of π/2 over that of z
#[tactic(auto, unfolding(crate::specs::ByMiller::coefficient_of))]
fn coefficient(scaled: bool, underflow: bool, z: Complex, root: f64, angle: f64) -> Complex
    ensures { result ≡ coefficient_of scaled underflow z root angle }
{
    let plain = real_over(1.2533141373155003, at_half_angle(root, angle));
    if scaled || underflow {
        return plain;
    }
    plain.product(z.opposite().exp())
}

#[tactic(auto, unfolding(crate::specs::ByMiller::far_state))]
fn far_state(underflow: bool) -> OverflowState
    ensures { result ≡ far_state underflow }
{
    if underflow {
        return OverflowState::NearUnder;
    }
    OverflowState::None
}

#[tactic(auto, unfolding(crate::specs::ByMiller::miller_seeds))]
fn miller_seeds(underflow: bool, found: Result<Miller, Refusal>) -> Result<Seeded, Refusal>
    ensures { result ≡ miller_seeds underflow found }
{
    let m = found?;
    Ok(Seeded {
        seeds: Seeds::Pair(m.first, m.second),
        state: far_state(underflow),
        underflow,
        terms: 0,
        backward: m.backward,
    })
}

#[tactic(auto, unfolding(crate::specs::ByMiller::half_seeds))]
fn half_seeds(underflow: bool, value: Complex) -> Seeded
    ensures { result ≡ half_seeds underflow value }
{
    Seeded {
        seeds: Seeds::Pair(value, value),
        state: far_state(underflow),
        underflow,
        terms: 0,
        backward: 0,
    }
}

impl Ground {
    #[tactic(auto, unfolding(crate::specs::ByMiller::other_seeds, miller::specs::Seeds::seeds_of))]
    pub fn other_seeds(self, scaled: bool) -> Result<Seeded, Refusal>
        ensures { result ≡ other_seeds self scaled }
    {
        let z = self.z;
        let root = sqrt(self.modulus);
        let angle = z.argument();
        let underflow = is_far(scaled, z);
        if is_half(self.fraction) {
            return Ok(half_seeds(underflow, coefficient(scaled, underflow, z, root, angle)));
        }
        let point = point_with(z, self.modulus, root, angle);
        let order = order_of(self.fraction, self.square);
        let found = search(point, order);
        let value = coefficient(scaled, underflow, z, root, angle);
        miller_seeds(
            underflow,
            seeds_at(point, order, value, self.is_alone(), found),
        )
    }
}
