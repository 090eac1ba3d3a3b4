// A piece, or a number in decimal, behind a text: what a lent buffer holds of one already, or a Text of at most so many bytes.
// Promised: Numbered of specs/Decimal.antt.
// It is no fmt::Write, though `write!` would spell a text at once: of `write!` a contract says what was written only where it returns Ok, and
// none says that it does where there is room, so whoever tells a text would have to say what it tells when it could not be spelled.
ghost use Rattle.std.specs.Prelude.{◌≡◌, [], ◌++◌, ◌+◌, ◌≤◌, length, take};
ghost use Rattle.wording.specs.Decimal.{Numbered};

use std::marker::Model;

pub fn put(piece: &[u8], text: &mut [u8], at: usize) -> usize
    requires { at + length piece.now ≤ length text.old }
    ensures { (result ≡ at + length piece.now)
        × (take result text.new ≡ take at text.old ++ piece.now) }
{
    let end = at + piece.len();
    text[at..end].copy_from_slice(piece);
    end
}

pub fn put_number(n: u64, text: &mut [u8], at: usize) -> usize
    requires { at + 20 ≤ length text.old }
    ensures { (result ≤ at + 20) × Numbered n (take at text.old) (take result text.new) }
{
    let mut digits = [0u8; 20];
    let places = io::decimal(n, &mut digits);
    put(&digits[..places], text, at)
}

// A type of its own beside splitting's Line, for the reason given there: what is put behind is asked to have room, and never dropped.
#[derive(Drop)]
pub struct Text<const N: usize> {
    bytes: [u8; N],
    len: usize,
}

// Clauses see the bytes so far.
impl<const N: usize> Model for Text<N> {
    ghost use Rattle.std.specs.Prelude.{List, ℕ, ◌≤◌, take};

    ghost Value = { List ℕ };

    ghost view = { λ t. take t.len t.bytes };

    ghost invariant = { λ t. t.len ≤ N };
}

impl<const N: usize> Text<N> {
    pub fn new() -> Self
        ensures { result ≡ [] }
    {
        Text {
            bytes: [0; N],
            len: 0,
        }
    }

    pub fn as_bytes(&self) -> &[u8]
        ensures { result.now ≡ self.now }
    {
        &self.bytes[..self.len]
    }

    pub fn put(&mut self, piece: &[u8])
        requires { length self.old + length piece.now ≤ N }
        ensures { self.new ≡ self.old ++ piece.now }
    {
        self.len = put(piece, &mut self.bytes, self.len);
    }

    pub fn put_number(&mut self, n: u64)
        requires { length self.old + 20 ≤ N }
        ensures room { length self.new ≤ length self.old + 20 }
        ensures number { Numbered n self.old self.new }
    {
        self.len = put_number(n, &mut self.bytes, self.len);
    }
}
