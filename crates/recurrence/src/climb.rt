// The plain climb: rung after rung, from one index up to another. From src/amos/recurrence.rs, run_recurrence_core with nothing to write.
// Promised: climb_from of specs/Climb.antt; as many rungs are counted as are climbed (proofs/ClimbFacts.antt).
ghost use Rattle.std.specs.Prelude.{◌≡◌, ◌+◌, ◌-◌, ◌<◌, ◌^◌};
ghost use Rattle.recurrence.specs.Climb.{climb_from};

use crate::onward::all;
use crate::rung::Ladder;
use crate::state::Climb;
use complex::number::Complex;

pub fn climb(two_over_z: Complex, base_order: f64, from: u32, to: u32, start: Climb) -> Climb
    requires { start.rungs + (to - from) < 2 ^ 32 }
    ensures { result ≡ climb_from two_over_z base_order from (to - from) start }
{
    let ladder = Ladder {
        two_over_z,
        base_order,
    };
    all::<false>(ladder, from, to, start, &mut [])
}
