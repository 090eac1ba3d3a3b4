// The program as splitting's reads serve it: a chunk is cut into lines, each counted as soon as it has come to its end. Promised of one read, whatever
// it reports and brings: TakenRead of specs/Turn.antt; and of the whole run that the page is that of some input's lines, of the one that the reads
// brought: Served. A read that fails is not the end: nothing is said then of the lines before it.
ghost use Rattle.std.specs.Prelude.{◌≡◌, ◌≤◌, ◌<◌, length};
ghost use Rattle.splitting.specs.Cut.{part_of};
ghost use Rattle.splitting.specs.declared.state.State.TheVariants.{Going};
ghost use Rattle.morning.specs.Turn.{Settled, Passed, PassedTo, AtEnd, TakenRead, Reached, Served};

use crate::ahead::digits_ahead;
use crate::tally::tally;
use crate::turn::Turn;
use page::adding::{add_digits, add_line};
use splitting::cut::Line;
use splitting::serving::Server;
use splitting::state::State;

// What is held of a line, the page, and how far the program is.
#[derive(Drop)]
pub struct Morning {
    line: Line<16403>,
    pub page: [u64; 58],
    pub turn: Turn,
}

impl Morning {
    pub fn new() -> Self
        ensures going { result.turn.state ≡ Going }
        ensures nothing { Reached result.line result.page result.turn.refused }
    {
        Morning {
            line: Line::empty(),
            page: [0; 58],
            turn: Turn {
                refused: 0,
                state: State::Going,
            },
        }
    }

    // A line that has come to its end is counted; of any other the held bytes wait.
    fn settle(&mut self, ended: bool)
        ensures { Settled ended self.old.line self.old.page self.old.turn.refused self.new.line self.new.page self.new.turn.refused
            × (self.new.turn.state ≡ self.old.turn.state) }
    {
        if ended {
            self.turn.refused = tally(
                self.turn.refused,
                add_line(&mut self.page, self.line.held()),
            );
            self.line.clear();
        }
    }

    // Bytes one by one, as far as the line's end. The next byte to take.
    fn take_bytes(&mut self, chunk: &[u8], at: usize) -> usize
        requires { at < length chunk.now }
        ensures { (at < result)
            × (result ≤ length chunk.now)
            × Passed self.old.line (part_of chunk.now at result) self.old.page self.old.turn.refused self.new.line
            self.new.page self.new.turn.refused
            × (self.new.turn.state ≡ self.old.turn.state) }
    {
        let piece = self.line.take(chunk, at);
        self.settle(piece.ended);
        piece.at
    }

    // A whole line of digits where nothing is held and one comes next, and else bytes. The next byte to take.
    fn take_some(&mut self, chunk: &[u8], at: usize) -> usize
        requires { at < length chunk.now }
        ensures { (at < result)
            × (result ≤ length chunk.now)
            × Passed self.old.line (part_of chunk.now at result) self.old.page self.old.turn.refused self.new.line
            self.new.page self.new.turn.refused
            × (self.new.turn.state ≡ self.old.turn.state) }
    {
        if self.line.is_empty() {
            if let Some(n) = digits_ahead(chunk, at) {
                self.turn.refused = tally(
                    self.turn.refused,
                    add_digits(&mut self.page, &chunk[at..at + n]),
                );
                return at + n + 1;
            }
        }
        self.take_bytes(chunk, at)
    }

    // A whole chunk, line by line.
    fn consume(&mut self, chunk: &[u8])
        requires { self.old.turn.state ≡ Going }
        ensures { PassedTo self.old.line chunk.now self.old.page self.old.turn.refused self.new.line self.new.page self.new.turn }
    {
        let mut at = 0;
        while at < chunk.len() {
            at = self.take_some(chunk, at);
        }
    }

    // The last line may lack its newline: it is counted as if it had one.
    fn close(&mut self)
        ensures { AtEnd self.old.line self.old.page self.old.turn.refused self.new.page self.new.turn }
    {
        self.turn.state = State::Whole;
        if !self.line.is_empty() {
            self.turn.refused = tally(
                self.turn.refused,
                add_line(&mut self.page, self.line.held()),
            );
        }
    }
}

impl Server for Morning {
    ghost state_of = { λ s. s.turn.state };

    ghost after_read = { λ got buffer a b. TakenRead got buffer a.line a.page a.turn.refused b.line b.page b.turn };

    ghost reached = { λ s. Reached s.line s.page s.turn.refused };

    ghost served = { λ s. Served s.page s.turn };

    fn state(&self) -> State {
        self.turn.state
    }

    fn receive(&mut self, bytes: &[u8]) {
        self.consume(bytes);
    }

    fn finish(&mut self) {
        self.close();
    }

    fn fail(&mut self) {
        self.turn.state = State::Unread;
    }
}
