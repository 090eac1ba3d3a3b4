// The program as splitting's reads serve it: a chunk is cut into lines, each answered as soon as it has come to its end. Promised of one read,
// whatever it reports and brings: TakenRead of specs/Turn.antt; and of the whole run that the counts are those of some input's lines: Served.
ghost use Rattle.std.specs.Prelude.{◌≡◌};
ghost use Rattle.splitting.specs.declared.state.State.TheVariants.{Going};
ghost use Rattle.sweep.specs.Turn.{Settled, AfterBytes, AtEnd, TakenRead, Reached, Served};

use crate::answer::answer;
use crate::turn::Turn;
use splitting::cut::Line;
use splitting::serving::Server;
use splitting::state::{State, is_over};

// What is held of a line; room for the frames of the longest sweep; and how far the program is.
#[derive(Drop)]
pub struct Sweeper {
    line: Line<93>,
    out: [u8; 233472],
    turn: Turn,
}

impl Sweeper {
    pub fn new() -> Self
        ensures going { result.turn.state ≡ Going }
        ensures nothing { Reached result.line result.turn }
    {
        Sweeper {
            line: Line::empty(),
            out: [0; 233472],
            turn: Turn {
                requests: 0,
                refused: 0,
                sent: 0,
                state: State::Going,
            },
        }
    }

    pub fn turn(&self) -> Turn
        ensures { result ≡ self.now.turn }
    {
        self.turn
    }

    // A line that has come to its end is answered; of any other the held bytes wait. Morning's `settle` and `consume` have this shape and no test of the
    // state between lines: no line of its ends the run. One for both, `consume(chunk, |line| ..)`, would test here what cannot be there.
    fn settle(&mut self, ended: bool)
        requires { self.old.turn.state ≡ Going }
        ensures { Settled ended self.old.line self.old.turn self.new.line self.new.turn }
    {
        if ended {
            self.turn = answer(self.line.held(), &mut self.out, self.turn);
            self.line.clear();
        }
    }

    // A whole chunk, line by line. Where a write failed, the program is over.
    fn consume(&mut self, chunk: &[u8])
        requires { self.old.turn.state ≡ Going }
        ensures { AfterBytes self.old.line chunk.now self.old.turn self.new.line self.new.turn }
    {
        let mut at = 0;
        while at < chunk.len() {
            let piece = self.line.take(chunk, at);
            self.settle(piece.ended);
            if is_over(self.turn.state) {
                return;
            }
            at = piece.at;
        }
    }

    // The last line may lack its newline: it is answered as if it had one.
    fn close(&mut self)
        requires { self.old.turn.state ≡ Going }
        ensures { AtEnd self.old.line self.old.turn self.new.turn }
    {
        if self.line.is_empty() {
            self.turn.state = State::Whole;
            return;
        }
        self.turn = answer(self.line.held(), &mut self.out, self.turn);
        if !is_over(self.turn.state) {
            self.turn.state = State::Whole;
        }
    }
}

impl Server for Sweeper {
    ghost state_of = { λ s. s.turn.state };

    ghost after_read = { λ got buffer a b. TakenRead got buffer a.line a.turn b.line b.turn };

    ghost reached = { λ s. Reached s.line s.turn };

    ghost served = { λ s. Served s.turn };

    fn state(&self) -> State {
        self.turn.state
    }

    fn receive(&mut self, bytes: &[u8]) {
        self.consume(bytes);
    }

    fn finish(&mut self) {
        self.close();
    }

    fn fail(&mut self) {
        self.turn.state = State::Unread;
    }
}
