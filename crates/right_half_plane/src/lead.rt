// The zeros before the first order on scale, the first two entries after them, and the climb that goes on from there.
// From src/amos/right_half_plane.rs, k_right_half_plane (ZBKNU). Promised: on_scale_lead and first_lead of specs/Lead.antt.
ghost use Rattle.std.specs.Prelude.{◌≡◌, ◌≤◌};
ghost use Rattle.right_half_plane.specs.Lead.{on_scale_lead, first_lead};

use crate::admitted::Admitted;
use complex::number::Complex;
use machine::constants::Machine;
use recurrence::first::first_orders;
use recurrence::state::{Climb, OverflowState};

#[derive(Clone, Copy)]
pub struct Lead {
    pub zeros: u32,
    pub first: Complex,
    pub second: Complex,
    pub climb: Climb,
}

// on scale: no zeros, and the two values off the scale
#[tactic(auto, unfolding(crate::specs::Lead::on_scale_lead))]
pub fn on_scale_lead(c: Climb) -> Lead
    ensures { result ≡ on_scale_lead c }
{
    let factor = c.state.reciprocal();
    Lead {
        zeros: 0,
        first: c.older.times_real(factor),
        second: c.newer.times_real(factor),
        climb: c,
    }
}

impl Admitted {
    // underflow still marked: first orders on scale
    #[tactic(auto, unfolding(crate::specs::Lead::first_lead, machine::specs::Constants::tolerance))]
    pub fn first_lead(self, c: Climb) -> Lead
        requires { c.rungs ≤ 1000 }
        ensures { result ≡ first_lead self.prepared c }
    {
        let g = self.prepared;
        let s = first_orders(g.z, g.order, g.count, c.older, c.newer, g.two_over_z);
        Lead {
            zeros: s.zeros,
            first: s.first.times_real(Machine::TOLERANCE),
            second: s.second.times_real(Machine::TOLERANCE),
            climb: Climb {
                older: s.first,
                newer: s.second,
                state: OverflowState::NearUnder,
                rungs: c.rungs + s.rungs,
            },
        }
    }
}
