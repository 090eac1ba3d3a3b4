// How the program ended, told, as splitting's `tell_end` does: here nothing is refused, so the status is by the end alone. `send` demands that the digit
// that splitting tells is this program's.
ghost use Rattle.std.specs.Prelude.{◌≡◌};
ghost use Rattle.splitting.specs.State.{status_of as told_of};
ghost use Rattle.lichenoar.specs.Turn.{status_of};

use splitting::state::State;

fn status(state: State) -> u8
    ensures { result ≡ status_of state }
{
    splitting::state::status(state, 0)
}

// The one place where the end leaves the program. The digit is there for the demand.
fn send(digit: u8, state: State, refused: u64, unwritten: &[u8], unread: &[u8])
    requires { (digit ≡ status_of state) × (digit ≡ told_of state refused) }
{
    splitting::telling::tell_end(state, refused, unwritten, unread);
}

pub fn tell(state: State) {
    let unwritten = b"lichenoar: the answers could not be written; the output is not complete\n";
    let unread = b"lichenoar: the input could not be read to its end; the output is not complete\n";
    send(status(state), state, 0, unwritten, unread);
}
