// How far the program is: how many lines were too many, and whether it goes on or how it ended.
use splitting::state::State;

#[derive(Clone, Copy, Debug, PartialEq, Eq)]
pub struct Turn {
    pub refused: u64,
    pub state: State,
}
