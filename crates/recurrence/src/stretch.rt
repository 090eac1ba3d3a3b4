// Rungs on which the state of scale stays, for the climb and for the fill. The fill asks for the values in lent cells (WRITES), as they are kept: they
// come off the scale behind the loop, and in the middle state that is nothing to do. The climb asks for none, and lends no cells.
// From src/amos/recurrence.rs, run_recurrence_core. Promised: PartIf of specs/shapes/Stretch.antt, as many rungs as are counted, and their cells.
ghost use Rattle.std.specs.Prelude.{◌≡◌, ◌+◌, ◌-◌, ◌*◌, ◌≤◌, ◌<◌, ◌^◌, true, length, set};
ghost use Rattle.recurrence.specs.State.{limit_of};
ghost use Rattle.recurrence.specs.shapes.Course.{Suits, Stays, after};
ghost use Rattle.recurrence.specs.shapes.Stretch.{PartIf, WrittenIf};

use crate::course::Course;
use crate::rung::Ladder;
use crate::state::Climb;
use complex::number::Complex;
use std::ops::ControlFlow;

pub fn put(w: Complex, out: &mut [f64], at: usize)
    requires { at + 1 < length out.old }
    ensures { out.new ≡ set (set out.old at w.re) (at + 1) w.im }
{
    out[at] = w.re;
    out[at + 1] = w.im;
}

// the next value where the state stays, and in its place where it is asked for
fn written<const WRITES: bool>(
    g: Course,
    p: f64,
    i: u32,
    older: Complex,
    newer: Complex,
    out: &mut [f64],
    at: usize,
) -> Option<Complex>
    requires { Suits g p i × (WRITES ≡ true → at + 1 < length out.old) }
    ensures { WrittenIf WRITES g i older newer result at out.old out.new }
{
    let w = g.next_held(p, i, older, newer)?;
    if WRITES {
        put(w, out, at);
    }
    Some(w)
}

// Four rungs on which the state stays, or those of them before one that may move. The first factor's real part is handed in.
fn four_rungs<const WRITES: bool>(
    g: Course,
    p: f64,
    i: u32,
    start: Climb,
    out: &mut [f64],
    at: usize,
) -> ControlFlow<Climb, Climb>
    requires { Suits g p i
        × (g.most ≡ limit_of start.state)
        × (i + 4 < 2 ^ 32)
        × (start.rungs + 4 < 2 ^ 32)
        × (at + 8 < 2 ^ 64)
        × (WRITES ≡ true → at + 8 ≤ length out.old) }
    ensures { PartIf WRITES g.ladder.two_over_z g.ladder.base_order i (i + 4) start at out.old (after result) out.new
        × Stays start result }
{
    let older = start.older;
    let newer = start.newer;
    let q = g.ladder.factor_re(i + 1);
    let Some(first) = written::<WRITES>(g, p, i, older, newer, out, at) else {
        return ControlFlow::Break(start);
    };
    let r = g.ladder.factor_re(i + 2);
    let Some(second) = written::<WRITES>(g, q, i + 1, newer, first, out, at + 2) else {
        return ControlFlow::Break(start.at(newer, first, 1));
    };
    let s = g.ladder.factor_re(i + 3);
    let Some(third) = written::<WRITES>(g, r, i + 2, first, second, out, at + 4) else {
        return ControlFlow::Break(start.at(first, second, 2));
    };
    let Some(fourth) = written::<WRITES>(g, s, i + 3, second, third, out, at + 6) else {
        return ControlFlow::Break(start.at(second, third, 3));
    };
    ControlFlow::Continue(start.at(third, fourth, 4))
}

// Rungs on which the state stays, four a turn: it stops before one that may move, and where less than four are left.
// The climb lends no cells: so turns are counted, and no chunks of the cells are walked.
pub fn stretch<const WRITES: bool>(
    ladder: Ladder,
    from: u32,
    to: u32,
    start: Climb,
    out: &mut [f64],
    place: usize,
) -> Climb
    requires { (from ≤ to)
        × (start.rungs + (to - from) < 2 ^ 32)
        × (place < 2 ^ 34)
        × (WRITES ≡ true → place + (to - from) * 2 ≤ length out.old) }
    ensures { PartIf WRITES ladder.two_over_z ladder.base_order from to start place out.old result out.new }
{
    let g = Course {
        ladder,
        most: start.state.limit(),
    };
    let mut c = start;
    for turn in 0..(to - from) / 4 {
        let i = from + 4 * turn;
        let at = place + 8 * (turn as usize);
        match four_rungs::<WRITES>(g, ladder.factor_re(i), i, c, out, at) {
            ControlFlow::Continue(d) => c = d,
            ControlFlow::Break(d) => return d,
        }
    }
    c
}
