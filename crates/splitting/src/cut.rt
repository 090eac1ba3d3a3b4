// A line of an input that comes in parts, held as far as there is room, in a lent buffer or in a Line: bytes of a chunk taken in order, as far as the
// next newline. Promised: Taken of specs/Cut.antt, for every chunk, every cut of it and every room.
ghost use Rattle.std.specs.Prelude.{◌≡◌, false, [], ◌∷◌, ◌++◌, ◌≤◌, ◌<◌, eqb, length, take};
ghost use Rattle.splitting.specs.Cut.{part_of, Taken};

use std::marker::Model;

pub const NEWLINE: u8 = 10;

// The next byte to take, how much of the line is held, and whether it has come to its end.
#[derive(Clone, Copy, Debug, PartialEq, Eq)]
pub struct Piece {
    pub at: usize,
    pub held: usize,
    pub ended: bool,
}

// One byte behind what is held, where there is room for it.
pub fn keep(b: u8, line: &mut [u8], held: usize) -> usize
    requires { held ≤ length line.old }
    ensures { (result ≤ length line.old)
        × (take result line.new ≡ take (length line.old) (take held line.old ++ (b ∷ []))) }
{
    if held < line.len() {
        line[held] = b;
        return held + 1;
    }
    held
}

// Until the line has come to its end, or the chunk has. The place goes beside the chunk and is below its length, here and in the programs: it is of
// a chunk and a place that the definitions speak: part_of of specs/Cut.antt, lichenoar's frame_ahead and Delivered, morning's LineAhead.
pub fn take_line(chunk: &[u8], from: usize, line: &mut [u8], held: usize) -> Piece
    requires { (from < length chunk.now) × (held ≤ length line.old) }
    ensures { (from < result.at)
        × (result.at ≤ length chunk.now)
        × (result.held ≤ length line.old)
        × (result.ended ≡ false → result.at ≡ length chunk.now)
        × Taken result.ended (length line.old) (take held line.old) (part_of chunk.now from result.at)
        (take result.held line.new) }
{
    let mut kept = held;
    for at in from..chunk.len() {
        let b = chunk[at];
        if b == NEWLINE {
            return Piece {
                at: at + 1,
                held: kept,
                ended: true,
            };
        }
        kept = keep(b, line, kept);
    }
    Piece {
        at: chunk.len(),
        held: kept,
        ended: false,
    }
}

// What is held of a line: its first bytes, at most `N` of them. Text of crate wording and Answers of lichenoar keep their bytes and clauses alike, and
// are types of their own: a line drops a byte without room, a text asks for room, answers lend theirs to a writer. A `Bytes<N>` within each of them
// would share the ends alone, and each would hand them on: `self.bytes.clear()` in the place of `self.held = 0`, `self.bytes.held()` of a slice.
#[derive(Drop)]
pub struct Line<const N: usize> {
    bytes: [u8; N],
    held: usize,
}

// Clauses see the bytes that are held.
impl<const N: usize> Model for Line<N> {
    ghost use Rattle.std.specs.Prelude.{List, ℕ, ◌≤◌, take};

    ghost Value = { List ℕ };

    ghost view = { λ l. take l.held l.bytes };

    ghost invariant = { λ l. l.held ≤ N };
}

impl<const N: usize> Line<N> {
    pub fn empty() -> Self
        ensures { result ≡ [] }
    {
        Line {
            bytes: [0; N],
            held: 0,
        }
    }

    pub fn held(&self) -> &[u8]
        ensures bytes { result.now ≡ self.now }
        ensures room { length self.now ≤ N }
    {
        &self.bytes[..self.held]
    }

    // The same line once more. A derived `clone` would say only that the fields are clones of each other: whoever calls it would have to show that the
    // bytes are the same, which is said here.
    pub fn copied(&self) -> Self
        ensures { result ≡ self.now }
    {
        Line {
            bytes: self.bytes,
            held: self.held,
        }
    }

    pub fn is_empty(&self) -> bool
        ensures { result ≡ eqb (length self.now) 0 }
    {
        self.held == 0
    }

    pub fn clear(&mut self)
        ensures { self.new ≡ [] }
    {
        self.held = 0;
    }

    // One byte behind what is held, where there is room for it. The test stands here too, so that no count is stored where there is none: without it
    // lichenoar's loop over bytes takes one jump more for each.
    pub fn keep(&mut self, b: u8)
        ensures { self.new ≡ take N (self.old ++ (b ∷ [])) }
    {
        if self.held < N {
            self.held = keep(b, &mut self.bytes, self.held);
        }
    }

    // Until the line has come to its end, or the chunk has.
    pub fn take(&mut self, chunk: &[u8], from: usize) -> Piece
        requires { from < length chunk.now }
        ensures { (from < result.at)
            × (result.at ≤ length chunk.now)
            × (result.ended ≡ false → result.at ≡ length chunk.now)
            × Taken result.ended N self.old (part_of chunk.now from result.at) self.new
            × (result.held ≡ length self.new) }
    {
        let piece = take_line(chunk, from, &mut self.bytes, self.held);
        self.held = piece.held;
        piece
    }
}
