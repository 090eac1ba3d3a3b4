// Bytes of the input taken in order: kept, or the line closed and its answer line written behind the ones before, with its newline.
// Promised: fed_of of crate answering's specs/Feed.antt. Of a long line the first 57 bytes are kept, which say all that its answer depends on.
ghost use Rattle.std.specs.Prelude.{◌≡◌, [], ◌+◌, ◌≤◌, ◌<◌, leb, length, set};
ghost use Rattle.splitting.specs.Lines.{newline};
ghost use Rattle.splitting.specs.Cut.{part_of};
ghost use Rattle.answering.specs.Line.{parsed_line};
ghost use Rattle.answering.specs.Feed.{with_line, closed_of, step_of, fed_of};
ghost use Rattle.lichenoar.specs.Feed.{most_room, most_written, frame_ahead};

use answering::line::{answer_line, answer_parsed};
use frame::asking::{Asking, Fields, asked, read_asking};
use frame::layout::ASKING_LENGTH;
use splitting::cut::{Line, NEWLINE};
use std::marker::Model;

// a frame's digits and its newline
const LINE_LENGTH: usize = 57;

const MOST_WRITTEN: usize = 65536;

const MOST_ROOM: usize = 16403;

// A line as far as it is held: one byte more than a frame has.
pub type Held = Line<57>;

// Answer lines, each with its newline, one behind the other. A type of its own beside splitting's Line, for the reason given there.
#[derive(Drop)]
pub struct Answers {
    bytes: [u8; 65536],
    filled: usize,
}

// Clauses see the bytes so far.
impl Model for Answers {
    ghost use Rattle.std.specs.Prelude.{List, ℕ, ◌≤◌, take};

    ghost Value = { List ℕ };

    ghost view = { λ a. take a.filled a.bytes };

    ghost invariant = { λ a. a.filled ≤ 65536 };
}

// A newline behind the first `end` bytes. How many there are then.
fn ended(bytes: &mut [u8], end: usize) -> usize
    requires { end < length bytes.old }
    ensures { (result ≡ end + 1) × (bytes.new ≡ set bytes.old end newline) }
{
    bytes[end] = NEWLINE;
    end + 1
}

impl Answers {
    pub fn none() -> Self
        ensures { result ≡ [] }
    {
        Answers {
            bytes: [0; 65536],
            filled: 0,
        }
    }

    pub fn written(&self) -> &[u8]
        ensures { result.now ≡ self.now }
    {
        &self.bytes[..self.filled]
    }

    pub fn clear(&mut self)
        ensures { self.new ≡ [] }
    {
        self.filled = 0;
    }

    // Whether the room does for any answer line and its newline.
    pub fn has_room(&self) -> bool
        ensures { result ≡ leb (length self.now + most_room) most_written }
    {
        self.filled + MOST_ROOM <= MOST_WRITTEN
    }

    // What was parsed of a line, answered.
    pub fn close(&mut self, parsed: Option<Asking>)
        requires { length self.old + most_room ≤ most_written }
        ensures { self.new ≡ with_line (parsed_line parsed) self.old }
    {
        let bytes = &mut self.bytes[..];
        let n = answer_parsed(parsed, &mut bytes[self.filled..]);
        self.filled = ended(bytes, self.filled + n);
    }

    // A line that was not read where it stands, read and answered.
    pub fn close_line(&mut self, line: &[u8])
        requires { length self.old + most_room ≤ most_written }
        ensures { self.new ≡ closed_of line.now self.old }
    {
        let bytes = &mut self.bytes[..];
        let length = answer_line(line, &mut bytes[self.filled..]);
        self.filled = ended(bytes, self.filled + length);
    }
}

// The fields of the next line where a frame and its newline come next: then the line need not be held, and is answered at once.
pub fn frame_ahead(chunk: &[u8], at: usize) -> Option<Fields>
    requires { at < length chunk.now }
    ensures { result ≡ frame_ahead chunk.now at }
{
    if chunk.len() - at < LINE_LENGTH {
        return None;
    }
    if chunk[at + ASKING_LENGTH] != NEWLINE {
        return None;
    }
    read_asking(&chunk[at..at + ASKING_LENGTH])
}

// What is held of a line, and what is written for the lines before it.
#[derive(Drop)]
pub struct Buffers {
    pub line: Held,
    pub out: Answers,
}

impl Buffers {
    ghost use Rattle.lichenoar.specs.Feeding.{feed_of};

    fn take_byte(&mut self, b: u8)
        requires { length self.old.out + most_room ≤ most_written }
        ensures { feed_of self.new ≡ step_of (feed_of self.old) b }
    {
        if b == NEWLINE {
            self.out.close_line(self.line.held());
            self.line.clear();
        } else {
            self.line.keep(b);
        }
    }

    // A whole frame with its newline where nothing is held, and else one byte. The next byte to take.
    fn take_some(&mut self, chunk: &[u8], at: usize) -> usize
        requires { (at < length chunk.now) × (length self.old.out + most_room ≤ most_written) }
        ensures { (at < result)
            × (result ≤ length chunk.now)
            × (feed_of self.new ≡ fed_of (feed_of self.old) (part_of chunk.now at result)) }
    {
        if self.line.is_empty() {
            if let Some(fields) = frame_ahead(chunk, at) {
                self.out.close(asked(fields));
                return at + LINE_LENGTH;
            }
        }
        self.take_byte(chunk[at]);
        at + 1
    }

    // Takes the bytes of a chunk from an index on, until none is left or the room might not do for another answer line. The next byte to take.
    pub fn advance(&mut self, chunk: &[u8], from: usize) -> usize
        requires { (from < length chunk.now) × (self.old.out ≡ []) }
        ensures { (from < result)
            × (result ≤ length chunk.now)
            × (feed_of self.new ≡ fed_of (feed_of self.old) (part_of chunk.now from result)) }
    {
        let mut at = from;
        while at < chunk.len() && self.out.has_room() {
            at = self.take_some(chunk, at);
        }
        at
    }
}
