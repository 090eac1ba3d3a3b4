// A ladder and one rung of its climb: the next order's value from two neighbours, its factor formed afresh, and the move to the next state of scale
// where the entry off the scale passes the boundary. From src/amos/recurrence.rs, run_recurrence_core, and limits.rs, scale_recurrence.
// Promised: rung_of of specs/Rung.antt. The boundary is tested by four comparisons with no magnitudes.
ghost use Rattle.std.specs.Prelude.{◌≡◌, ◌+◌, ◌<◌, ◌^◌, T};
ghost use Rattle.std.specs.Float.{binary64};
ghost use Rattle.std.specs.Float.Ieee.{of_bits, lt};
ghost use Rattle.recurrence.specs.Rung.{factor_of, next_of, exceeds, passes, moved_climb, rung_of};

use crate::state::{Climb, OverflowState, Rung};
use complex::number::Complex;
use machine::magnitude::outside;

fn beyond(b: f64, w: Complex) -> bool
    requires { T (lt (of_bits binary64 0) b) }
    ensures { result ≡ exceeds b w }
{
    if outside(b, w.re) {
        return true;
    }
    outside(b, w.im)
}

fn leaves(state: OverflowState, entry: Complex) -> bool
    ensures { result ≡ passes state entry }
{
    match state {
        OverflowState::NearUnder => beyond(state.boundary(), entry),
        OverflowState::None => beyond(state.boundary(), entry),
        OverflowState::NearOver => false,
    }
}

// the older value comes off the scale that is left, the entry stands for the newer, and both go on the scale that is entered
fn moved(older: Complex, entry: Complex, state: OverflowState, rungs: u32) -> Climb
    ensures { result ≡ moved_climb older entry state rungs }
{
    let next = state.moved_on();
    let factor = next.scale();
    Climb {
        older: older.times_real(state.reciprocal()).times_real(factor),
        newer: entry.times_real(factor),
        state: next,
        rungs: rungs,
    }
}

// What the rungs of a climb share: 2/z, and the order that their indices count from.
#[derive(Clone, Copy)]
pub struct Ladder {
    pub two_over_z: Complex,
    pub base_order: f64,
}

impl Ladder {
    // the real part of the factor at the index i
    pub fn factor_re(self, i: u32) -> f64
        ensures { result ≡ (factor_of self.two_over_z self.base_order i).re }
    {
        self.two_over_z.re * (self.base_order + (i as f64))
    }

    // the next order's value, on the scale of its neighbours
    pub fn next_value(self, i: u32, older: Complex, newer: Complex) -> Complex
        ensures { result ≡ next_of (factor_of self.two_over_z self.base_order i) older newer }
    {
        let factor = self.two_over_z.times_real(self.base_order + (i as f64));
        older.plus(factor.product(newer))
    }

    // one rung, as `rung` below has it of the parts of a ladder
    pub fn rung(self, i: u32, c: Climb) -> Rung
        requires { c.rungs + 1 < 2 ^ 32 }
        ensures { result ≡ rung_of self.two_over_z self.base_order i c }
    {
        rung(self.two_over_z, self.base_order, i, c)
    }
}

// One rung, as docs/TRACE.md quotes it (C3): that of a ladder goes through it. The parts of a ladder come apart here and in `fill` (T6), whose
// signatures are quoted there, and in `climb`, search_from and first_orders, as climb_from, search_from and first_orders of specs/ have them.
pub fn rung(two_over_z: Complex, base_order: f64, i: u32, c: Climb) -> Rung
    requires { c.rungs + 1 < 2 ^ 32 }
    ensures { result ≡ rung_of two_over_z base_order i c }
{
    let ladder = Ladder {
        two_over_z,
        base_order,
    };
    let older = c.older;
    let newer = c.newer;
    let state = c.state;
    let rungs = c.rungs + 1;
    let next = ladder.next_value(i, older, newer);
    let entry = next.times_real(state.reciprocal());
    if leaves(state, entry) {
        return Rung {
            climb: moved(newer, entry, state, rungs),
            entry: entry,
            moved: true,
        };
    }
    Rung {
        climb: Climb {
            older: newer,
            newer: next,
            state: state,
            rungs: rungs,
        },
        entry: entry,
        moved: false,
    }
}
