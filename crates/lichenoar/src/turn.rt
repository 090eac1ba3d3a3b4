// How far the program is: how many bytes of answers the writer took, and whether it goes on or how it ended.
ghost use Rattle.std.specs.Prelude.{◌≡◌, ◌+◌};
ghost use Rattle.lichenoar.specs.Turn.{tallied};

use splitting::state::State;

#[derive(Clone, Copy, Debug, PartialEq, Eq)]
pub struct Turn {
    pub sent: u64,
    pub state: State,
}

const ROUND: u64 = 9223372036854775808;

// Bytes are counted modulo 2^63, so that no input is too long for the count.
pub fn tally(sent: u64, more: usize) -> u64
    ensures { result ≡ tallied (sent + more) }
{
    (sent % ROUND + (more as u64) % ROUND) % ROUND
}
