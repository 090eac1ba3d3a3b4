// From the seeds to the first order wanted, on scale or with underflow still marked. From src/amos/right_half_plane.rs, k_right_half_plane (ZBKNU).
// Promised: reach_of of specs/Reach.antt. Each rung raises the call's own number. `underflow` and the climb come apart, as reach_of and the
// theorem reach-arrives have them.
ghost use Rattle.std.specs.Prelude.{◌≡◌, ◌≤◌};
ghost use Rattle.right_half_plane.specs.Reach.{steps_of, wanted_of, resting_of, climbed_of, begun_of, reach_of};

use crate::admitted::Admitted;
use crate::ground::Ground;
use crate::recover::{Resumed, recover};
use recurrence::climb::climb;
use recurrence::state::Climb;
use refusal::refusal::Refusal;

// Where the climb stands at the first order wanted: on the scale of its state, or without e^-z and still to be tried.
#[derive(Clone, Copy)]
pub enum Reached {
    OnScale(Climb),
    Marked(Climb),
}

impl Ground {
    // how many rungs lie between the seeds and the orders wanted
    #[tactic(auto, unfolding(crate::specs::Reach::steps_of))]
    fn steps(self) -> u32
        ensures { result ≡ steps_of self }
    {
        if self.count == 1 {
            return self.nearest.saturating_sub(1);
        }
        self.nearest
    }

    // One value alone is the newer of the two, unless it is the first seed.
    #[tactic(auto, unfolding(crate::specs::Reach::wanted_of))]
    fn wanted(self, c: Climb) -> Climb
        ensures { result ≡ wanted_of self c }
    {
        if self.count == 1 && self.nearest > 0 {
            return Climb {
                older: c.newer,
                ..c
            };
        }
        c
    }

    // with no rung to climb
    #[tactic(auto, unfolding(crate::specs::Reach::resting_of))]
    fn resting(self, underflow: bool, c: Climb) -> Reached
        ensures { result ≡ resting_of self underflow c }
    {
        let c = self.wanted(c);
        if underflow {
            return Reached::Marked(c);
        }
        Reached::OnScale(c)
    }
}

impl Admitted {
    // where the plain climb begins: at the seeds, or where the climb out of underflow leaves off
    #[tactic(auto, unfolding(crate::specs::Reach::begun_of))]
    fn begun(self, underflow: bool, c: Climb) -> Result<Resumed, Refusal>
        ensures { result ≡ begun_of self.prepared underflow c }
    {
        let g = self.prepared;
        if underflow {
            return recover(g.fraction, g.two_over_z, g.z, g.steps(), c.older, c.newer);
        }
        Ok(Resumed {
            climb: c,
            next_offset: 2,
        })
    }

    #[tactic(auto, unfolding(crate::specs::Reach::climbed_of))]
    fn climbed(self, from: u32, c: Climb) -> Reached
        requires { c.rungs ≤ 1000 }
        ensures { result ≡ climbed_of self.prepared from c }
    {
        let g = self.prepared;
        let top = climb(g.two_over_z, g.fraction - 1.0, from, g.steps() + 2, c);
        Reached::OnScale(g.wanted(top))
    }

    #[tactic(auto, unfolding(crate::specs::Reach::reach_of, crate::specs::Reach::resumed_of))]
    pub fn reach(self, underflow: bool, c: Climb) -> Result<Reached, Refusal>
        requires { c.rungs ≡ 0 }
        ensures { result ≡ reach_of self.prepared underflow c }
    {
        if self.prepared.steps() == 0 {
            return Ok(self.prepared.resting(underflow, c));
        }
        let from = self.begun(underflow, c)?;
        Ok(self.climbed(from.next_offset, from.climb))
    }
}
