// How far the program is: how many requests there were, how many refusals it told and how many bytes of frames the writer took; and whether it
// goes on or how it ended.
use splitting::state::State;

#[derive(Clone, Copy, Debug, PartialEq, Eq)]
pub struct Turn {
    pub requests: u64,
    pub refused: u64,
    pub sent: u64,
    pub state: State,
}
