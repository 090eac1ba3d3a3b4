// The program as splitting's reads serve it. Promised of one read, whatever it reports and brings: Taken of specs/Turn.antt; and of the whole run
// that some input has answers as long as what the writer took, the one that the reads brought: Served.
ghost use Rattle.std.specs.Prelude.{◌≡◌};
ghost use Rattle.splitting.specs.declared.state.State.TheVariants.{Going};
ghost use Rattle.lichenoar.specs.Turn.{AtEnd, Taken, Reached, Served};

use crate::deliver::Answerer;
use splitting::cut::NEWLINE;
use splitting::serving::Server;
use splitting::state::{State, is_over};

// The last line may lack its newline: it is answered as if it had one. One shape with sweep's `close`: a common `close(self, |a| a.consume(&[NEWLINE]))`
// would need each program's AtEnd, turn and line as ghost parameters, and a law that ties them, to share two tests.
fn close(answerer: &mut Answerer)
    requires { answerer.old.turn.state ≡ Going }
    ensures { AtEnd answerer.old.buffers.line answerer.old.turn.sent answerer.new.turn }
{
    if answerer.buffers.line.is_empty() {
        answerer.turn.state = State::Whole;
        return;
    }
    answerer.consume(&[NEWLINE]);
    if !is_over(answerer.turn.state) {
        answerer.turn.state = State::Whole;
    }
}

impl Server for Answerer {
    ghost state_of = { λ s. s.turn.state };

    ghost after_read = { λ got buffer a b. Taken got buffer a.buffers.line a.turn.sent b.buffers.line b.turn };

    ghost reached = { λ s. Reached s.buffers.line s.turn.sent };

    ghost served = { λ s. Served s.turn };

    fn state(&self) -> State {
        self.turn.state
    }

    fn receive(&mut self, bytes: &[u8]) {
        self.consume(bytes);
    }

    fn finish(&mut self) {
        close(self);
    }

    fn fail(&mut self) {
        self.turn.state = State::Unread;
    }
}
