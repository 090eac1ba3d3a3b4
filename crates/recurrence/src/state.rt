// The three states of scale of a climb: values near underflow are kept 2^52 times too large, values near overflow as much too small.
// From src/amos/limits.rs, OverflowState; the words are those of docs/SCOPE.md, The climb.
// Promised: each state's scale, reciprocal, boundary and limit are those of specs/State.antt.
ghost use Rattle.std.specs.Prelude.{◌≡◌, ◌+◌, ◌<◌, ◌^◌};
ghost use Rattle.recurrence.specs.State.{scale_of, reciprocal_of, boundary_of, limit_of, moved_on};

use complex::number::Complex;
use machine::constants::Machine;

#[derive(Clone, Copy, Debug, PartialEq, Eq)]
pub enum OverflowState {
    NearUnder,
    None,
    NearOver,
}

// What a climb carries: two neighbouring values on the state's scale, and how many rungs the call has climbed so far.
#[derive(Clone, Copy)]
pub struct Climb {
    pub older: Complex,
    pub newer: Complex,
    pub state: OverflowState,
    pub rungs: u32,
}

// What one rung gives: the climb after it, its value off the scale, and whether the state moved. No code reads `moved`, and it stays: moves_from of
// specs/Climb.antt, by which the theorem two-moves-in-all counts (proofs/ClimbFacts.antt), reads it.
#[derive(Clone, Copy)]
pub struct Rung {
    pub climb: Climb,
    pub entry: Complex,
    pub moved: bool,
}

impl OverflowState {
    // what a value is multiplied by to be kept in this state
    pub fn scale(self) -> f64
        ensures { result ≡ scale_of self }
    {
        match self {
            OverflowState::NearUnder => Machine::INVERSE_TOLERANCE,
            OverflowState::None => 1.0,
            OverflowState::NearOver => Machine::TOLERANCE,
        }
    }

    // what takes the scale off again
    pub fn reciprocal(self) -> f64
        ensures { result ≡ reciprocal_of self }
    {
        match self {
            OverflowState::NearUnder => Machine::TOLERANCE,
            OverflowState::None => 1.0,
            OverflowState::NearOver => Machine::INVERSE_TOLERANCE,
        }
    }

    // an unscaled entry above it ends the state
    pub fn boundary(self) -> f64
        ensures { result ≡ boundary_of self }
    {
        match self {
            OverflowState::NearUnder => Machine::ABSOLUTE_APPROXIMATION_LIMIT,
            OverflowState::None => 1.0 / Machine::ABSOLUTE_APPROXIMATION_LIMIT,
            OverflowState::NearOver => 1.7976931348623157e308,
        }
    }

    // a value kept in this state ends it only where a part lies above this; in the last state none does
    pub fn limit(self) -> f64
        ensures { result ≡ limit_of self }
    {
        match self {
            OverflowState::NearUnder => Machine::ABSOLUTE_APPROXIMATION_LIMIT
                * Machine::INVERSE_TOLERANCE,
            OverflowState::None => 1.0 / Machine::ABSOLUTE_APPROXIMATION_LIMIT,
            OverflowState::NearOver => 1.0 / 0.0,
        }
    }

    // one place on; the last has no other behind it
    pub fn moved_on(self) -> OverflowState
        ensures { result ≡ moved_on self }
    {
        match self {
            OverflowState::NearUnder => OverflowState::None,
            OverflowState::None => OverflowState::NearOver,
            OverflowState::NearOver => OverflowState::NearOver,
        }
    }
}

impl Climb {
    // two neighbouring values a few rungs on, in the same state
    pub fn at(self, older: Complex, newer: Complex, rungs: u32) -> Climb
        requires { self.rungs + rungs < 2 ^ 32 }
        ensures { result ≡ record { older = older; newer = newer; state = self.state; rungs = self.rungs + rungs } }
    {
        reached(older, newer, self.state, self.rungs + rungs)
    }
}

// the climb at two neighbouring values
pub fn reached(older: Complex, newer: Complex, state: OverflowState, rungs: u32) -> Climb
    ensures { result ≡ record { older = older; newer = newer; state = state; rungs = rungs } }
{
    Climb {
        older: older,
        newer: newer,
        state: state,
        rungs: rungs,
    }
}
