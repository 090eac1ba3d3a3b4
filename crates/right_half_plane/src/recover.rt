// The climb out of underflow: rung after rung from seeds that stand without e^-z, each value tried, until two neighbours are on scale.
// From src/amos/right_half_plane.rs, k_right_half_plane (ZBKNU, DO 262); the search is crate recurrence's. Promised: recover_of of
// specs/Recover.antt; refusal 7 where the offsets run out first, or where one of the two is zero in both parts: there the Rust hands on values
// that it never found.
ghost use Rattle.std.specs.Prelude.{◌≡◌, ◌≤◌};
ghost use Rattle.right_half_plane.specs.Recover.{is_zero_pair, settled_of, recover_of};

use call::limits;
use complex::number::Complex;
use recurrence::search::{Rule, Search, search_at, search_from};
use recurrence::state::{Climb, OverflowState};
use refusal::refusal::Refusal;

// Two neighbours on the scale of NearUnder, and the offset at which the plain climb resumes.
#[derive(Clone, Copy)]
pub struct Resumed {
    pub climb: Climb,
    pub next_offset: u32,
}

// both parts are zero, of either sign
#[tactic(auto, unfolding(crate::specs::Recover::is_zero_pair, call::specs::Limits::is_zero))]
fn is_zero(w: Complex) -> bool
    ensures { result ≡ is_zero_pair w }
{
    limits::is_zero(w.re, w.im)
}

// What was found is the pair, unless a zero is among it.
#[tactic(auto, unfolding(crate::specs::Recover::settled_of, crate::specs::Recover::neighbours_of, recurrence::specs::Search::is_found))]
fn settled(s: Search) -> Result<Resumed, Refusal>
    requires { s.rungs ≤ 1000 }
    ensures { result ≡ settled_of s }
{
    let (Some(older), Some(newer)) = (s.before, s.latest) else {
        return Err(Refusal::Climb);
    };
    if is_zero(older) || is_zero(newer) {
        return Err(Refusal::Climb);
    }
    Ok(Resumed {
        climb: Climb {
            older,
            newer,
            state: OverflowState::NearUnder,
            rungs: s.rungs,
        },
        next_offset: s.rungs + 2,
    })
}

// The numbers come apart, as recover_of and the theorem recover-resumes have them.
#[tactic(auto, unfolding(crate::specs::Recover::recover_of))]
pub fn recover(
    fraction: f64,
    two_over_z: Complex,
    z: Complex,
    steps: u32,
    first: Complex,
    second: Complex,
) -> Result<Resumed, Refusal>
    requires { steps ≤ 1000 }
    ensures { result ≡ recover_of fraction two_over_z z steps first second }
{
    let start = search_at(z, first, second, None, None);
    settled(search_from(Rule::OutOfUnderflow, fraction, two_over_z, steps, start))
}
