// Seeds for |z| to 2: Temme's sum, on the scale of its state, times e^z where K is asked for scaled.
// From src/amos/right_half_plane.rs, k_right_half_plane (ZBKNU). Promised: temme_seeds of specs/ByTemme.antt.
ghost use Rattle.std.specs.Prelude.{◌≡◌};
ghost use Rattle.right_half_plane.specs.ByTemme.{growth_state, temme_seeds};
ghost use Rattle.right_half_plane.specs.shapes.Growth.{growth_if, grown_if, pair_if};

use crate::ground::Ground;
use crate::seeds::{Seeded, Seeds};
use complex::number::Complex;
use machine::constants::Machine;
use machine::magnitude::magnitude;
use recurrence::state::OverflowState;
use temme::seeds::Temme;

// a large sinh μ over the fraction tells that the climb may overflow
#[tactic(auto, unfolding(crate::specs::ByTemme::growth_state, machine::specs::Constants::approximation_limit))]
fn growth_state(order: f64, shinc: Complex) -> OverflowState
    ensures { result ≡ growth_state order shinc }
{
    if (order + 1.0) * magnitude(shinc.re) > Machine::APPROXIMATION_LIMIT {
        return OverflowState::NearOver;
    }
    OverflowState::None
}

// e^z, which scaled seeds take and no others. It does not wait for Temme's sum, and is worked out before it.
#[tactic(auto, unfolding(crate::specs::shapes::Growth::growth_if))]
fn growth(scaled: bool, z: Complex) -> Option<Complex>
    ensures { result ≡ growth_if scaled z }
{
    if scaled { Some(z.exp()) } else { None }
}

#[tactic(auto, unfolding(crate::specs::shapes::Growth::grown_if))]
fn grown(growth: Option<Complex>, value: Complex) -> Complex
    ensures { result ≡ grown_if growth value }
{
    match growth {
        Some(growth) => value.product(growth),
        None => value,
    }
}

impl Ground {
    #[tactic(auto, unfolding(crate::specs::shapes::Growth::pair_if))]
    fn temme_pair(self, growth: Option<Complex>, factor: f64, t: Temme) -> Seeds
        ensures { result ≡ pair_if self growth factor t }
    {
        let first = t.first.times_real(factor);
        let second = t.second.product(self.two_over_z.times_real(factor));
        Seeds::Pair(grown(growth, first), grown(growth, second))
    }

    pub fn temme_seeds(self, scaled: bool) -> Seeded
        ensures { result ≡ temme_seeds self scaled }
    {
        let z = self.z;
        let two_over_z = self.two_over_z;
        let growth = growth(scaled, z);
        let t = temme::seeds::seeds(z, self.modulus, two_over_z.ln(), self.fraction, self.square);
        let terms = t.terms;
        if self.is_alone() {
            return Seeded {
                seeds: Seeds::Finished(grown(growth, t.first)),
                state: OverflowState::None,
                underflow: false,
                terms,
                backward: 0,
            };
        }
        let state = growth_state(self.order, t.shinc);
        Seeded {
            seeds: self.temme_pair(growth, state.scale(), t),
            state,
            underflow: false,
            terms,
            backward: 0,
        }
    }
}
