// Part after part of a climb, up to an index: a stretch on which the state of scale stays, and the rung after it. The fill asks for the entries in
// lent cells (WRITES), off the scale: those of a stretch come off it behind its loop. The climb asks for none, and lends no cells.
// From src/amos/recurrence.rs, run_recurrence_core. Promised: WholeIf of specs/shapes/Stretch.antt, the climb and all the cells.
ghost use Rattle.std.specs.Prelude.{◌≡◌, ◌+◌, ◌-◌, ◌*◌, ◌≤◌, ◌<◌, ◌^◌, true, length};
ghost use Rattle.recurrence.specs.shapes.Stretch.{FilledIf, WholeIf};

use crate::off_scale::take_off;
use crate::rung::Ladder;
use crate::state::Climb;
use crate::stretch::{put, stretch};

// The ladder, the indices, the start, the cells and the place come apart, here and in stretch.rt, as FilledIf and PartIf of specs/shapes/Stretch.antt take
// them, and in climb.rt and fill.rt, as climb_from and fill_from do: so what is asked of them stands in clauses. The place goes beside the cells, since
// `&mut out[place..]` could be taken under WRITES alone: the climb lends none.

// a stretch, with its entries off the scale
fn entries<const WRITES: bool>(
    ladder: Ladder,
    from: u32,
    to: u32,
    start: Climb,
    out: &mut [f64],
    place: usize,
) -> Climb
    requires { (from ≤ to)
        × (start.rungs + (to - from) < 2 ^ 32)
        × (place < 2 ^ 34)
        × (WRITES ≡ true → place + (to - from) * 2 ≤ length out.old) }
    ensures { FilledIf WRITES ladder.two_over_z ladder.base_order from to start place out.old result out.new }
{
    let state = start.state;
    let c = stretch::<WRITES>(ladder, from, to, start, out, place);
    if WRITES {
        let at = place + 2 * ((c.rungs - start.rungs) as usize);
        take_off(state, &mut out[place..at]);
    }
    c
}

// a stretch, and the rung after it
fn onward<const WRITES: bool>(
    ladder: Ladder,
    from: u32,
    to: u32,
    start: Climb,
    out: &mut [f64],
    place: usize,
) -> Climb
    requires { (from < to)
        × (start.rungs + (to - from) < 2 ^ 32)
        × (place < 2 ^ 34)
        × (WRITES ≡ true → place + (to - from) * 2 ≤ length out.old) }
    ensures { FilledIf WRITES ladder.two_over_z ladder.base_order from to start place out.old result out.new
        × (start.rungs < result.rungs) }
{
    let c = entries::<WRITES>(ladder, from, to, start, out, place);
    let climbed = c.rungs - start.rungs;
    if climbed < to - from {
        let r = ladder.rung(from + climbed, c);
        if WRITES {
            put(r.entry, out, place + 2 * (climbed as usize));
        }
        return r.climb;
    }
    c
}

// The index goes on by the rungs of each part, not one by one.
pub fn all<const WRITES: bool>(
    ladder: Ladder,
    from: u32,
    to: u32,
    start: Climb,
    out: &mut [f64],
) -> Climb
    requires { (start.rungs + (to - from) < 2 ^ 32)
        × (WRITES ≡ true → length out.old ≡ (to - from) * 2) }
    ensures { WholeIf WRITES ladder.two_over_z ladder.base_order from (to - from) start result out.new }
{
    let mut c = start;
    let mut i = from;
    while i < to {
        let place = 2 * ((i - from) as usize);
        c = onward::<WRITES>(ladder, i, to, c, out, place);
        i = from + (c.rungs - start.rungs);
    }
    c
}
