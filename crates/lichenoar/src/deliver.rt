// A chunk's answers, handed to the writer. No contract of the kit says what a write was given, so `send` demands that it is given exactly
// the answers that the bytes taken complete, and what is counted are bytes that the writer took. Promised: AfterBytes of specs/Turn.antt.
ghost use Rattle.std.specs.Prelude.{◌≡◌, ◌≤◌, ◌<◌, length, IfSome};
ghost use Rattle.splitting.specs.Cut.{part_of};
ghost use Rattle.splitting.specs.declared.state.State.TheVariants.{Going};
ghost use Rattle.answering.specs.Feed.{owed_of};
ghost use Rattle.lichenoar.specs.Turn.{Delivered, AfterBytes, Reached};

use crate::lines::{Answers, Buffers, Held};
use crate::turn::{Turn, tally};
use splitting::cut::Line;
use splitting::state::State;
use splitting::telling::STDOUT_FILENO;

// The one place where answers leave the program: how many bytes of them the writer took. What was held before, and the chunk from one place to
// another, are there for the demand.
fn send(answers: &[u8], before: &Held, chunk: &[u8], from: usize, at: usize) -> usize
    requires { answers.now ≡ owed_of before.now (part_of chunk.now from at) }
    ensures { result ≤ length answers.now }
{
    if io::write_all(STDOUT_FILENO, answers) {
        return answers.len();
    }
    0
}

// The two buffers, and how far the program is.
#[derive(Drop)]
pub struct Answerer {
    pub buffers: Buffers,
    pub turn: Turn,
}

impl Answerer {
    pub fn new() -> Self
        ensures going { result.turn.state ≡ Going }
        ensures nothing { Reached result.buffers.line result.turn.sent }
    {
        Answerer {
            buffers: Buffers {
                line: Line::empty(),
                out: Answers::none(),
            },
            turn: Turn {
                sent: 0,
                state: State::Going,
            },
        }
    }

    // As many bytes as there is room for their answers, taken, and the answers handed on. The next byte to take, or None where a write failed.
    fn deliver(&mut self, chunk: &[u8], from: usize) -> Option<usize>
        requires { from < length chunk.now }
        ensures { IfSome result (λ at. Delivered chunk.now from at self.old.buffers.line self.old.turn self.new.buffers.line self.new.turn) }
    {
        let before = self.buffers.line.copied();
        self.buffers.out.clear();
        let at = self.buffers.advance(chunk, from);
        let answers = self.buffers.out.written();
        let written = send(answers, &before, chunk, from, at);
        if written < answers.len() {
            return None;
        }
        self.turn.sent = tally(self.turn.sent, written);
        Some(at)
    }

    // A whole chunk. Where the writer did not take what it was handed, the program is over.
    pub fn consume(&mut self, chunk: &[u8])
        requires { self.old.turn.state ≡ Going }
        ensures { AfterBytes self.old.buffers.line chunk.now self.old.turn.sent self.new.buffers.line self.new.turn }
    {
        let mut at = 0;
        while at < chunk.len() {
            let Some(next) = self.deliver(chunk, at) else {
                self.turn.state = State::Unwritten;
                return;
            };
            at = next;
        }
    }
}
