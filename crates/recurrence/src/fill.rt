// The climb that fills a buffer: each rung's entry off the scale goes into the lent cells, its real part first.
// From src/amos/recurrence.rs, run_recurrence_core with the output slice.
// Promised: fill_from of specs/Fill.antt, the climb and all the cells.
ghost use Rattle.std.specs.Prelude.{◌≡◌, ◌+◌, ◌/◌, ◌%◌, ◌<◌, ◌^◌, length};
ghost use Rattle.recurrence.specs.Fill.{fill_from};

use crate::onward::all;
use crate::rung::Ladder;
use crate::state::Climb;
use complex::number::Complex;

pub fn fill(two_over_z: Complex, base_order: f64, from: u32, start: Climb, out: &mut [f64]) -> Climb
    requires { (length out.old % 2 ≡ 0)
        × (from + length out.old < 2 ^ 32)
        × (start.rungs + length out.old < 2 ^ 32) }
    ensures { (result ≡ (fill_from two_over_z base_order from (length out.old / 2) start).climb)
        × (out.new ≡ (fill_from two_over_z base_order from (length out.old / 2) start).cells) }
{
    let to = from + (out.len() / 2) as u32;
    let ladder = Ladder {
        two_over_z,
        base_order,
    };
    all::<true>(ladder, from, to, start, out)
}
