// How far a program that answers lines is: it goes on, or how it ended; and the status that it tells then.
// Promised: is_over and status_of of specs/State.antt.
ghost use Rattle.std.specs.Prelude.{◌≡◌};
ghost use Rattle.splitting.specs.State.{is_over, status_of};

const ZERO: u8 = 48;

const ONE: u8 = 49;

// Going on; everything read and answered; a write that failed; a read that failed.
#[derive(Clone, Copy, Debug, PartialEq, Eq)]
pub enum State {
    Going,
    Whole,
    Unwritten,
    Unread,
}

pub fn is_over(state: State) -> bool
    ensures { result ≡ is_over state }
{
    state != State::Going
}

// As a digit: whether everything was read and written, and nothing refused.
pub fn status(state: State, refused: u64) -> u8
    ensures { result ≡ status_of state refused }
{
    if state == State::Whole && refused == 0 {
        ZERO
    } else {
        ONE
    }
}
