// An asking frame: its fields read by the layout alone, bits kept; what they ask, or that they are malformed; and the line of given fields.
// From docs/SCOPE.md, The frame program. Promised for every line and all fields: framed_of, parsed_of and asking_line_of of specs/Asking.antt.
// No other check is made here.
ghost use Rattle.std.specs.Prelude.{◌≡◌, ◌+◌, ◌≤◌, length};
ghost use Rattle.frame.specs.Layout.{asking_length};
ghost use Rattle.frame.specs.Over.{over};
ghost use Rattle.frame.specs.Asking.{fields_of, framed_of, asking_of, asked_of, parsed_of, asking_line_of};

use crate::digits::{Digits, spell};
use crate::layout::{
    ASKING_LENGTH, BYTE_WIDTH, COUNT_AT, COUNT_WIDTH, FLOAT_WIDTH, IM_AT, KIND_AT, ORDER_AT, RE_AT,
    SCALING_AT,
};
use call::kind::Kind;
use machine::bits::of_pattern;

// The fields as they stand, each a number.
#[derive(Clone, Copy, Debug, PartialEq, Eq)]
pub struct Fields {
    pub kind: u64,
    pub scaling: u64,
    pub count: u64,
    pub v: u64,
    pub re: u64,
    pub im: u64,
}

#[derive(Clone, Copy)]
pub struct Asking {
    pub kind: Kind,
    pub scaled: bool,
    pub count: usize,
    pub v: f64,
    pub re: f64,
    pub im: f64,
}

fn read_fields(digits: &Digits) -> Fields
    requires { length digits.now.line.now ≡ asking_length }
    ensures { result ≡ fields_of digits.now.line.now }
{
    Fields {
        kind: digits.field(KIND_AT, BYTE_WIDTH),
        scaling: digits.field(SCALING_AT, BYTE_WIDTH),
        count: digits.field(COUNT_AT, COUNT_WIDTH),
        v: digits.field(ORDER_AT, FLOAT_WIDTH),
        re: digits.field(RE_AT, FLOAT_WIDTH),
        im: digits.field(IM_AT, FLOAT_WIDTH),
    }
}

// None of a line that is no frame.
#[tactic(auto, using(std::proofs::lemmas::Bool::Decides::nat_tests), unfolding(crate::specs::Asking::framed_of))]
pub fn read_asking(line: &[u8]) -> Option<Fields>
    ensures { result ≡ framed_of line.now }
{
    if line.len() != ASKING_LENGTH {
        return None;
    }
    Some(read_fields(&Digits::of(line)?))
}

fn asking_of(kind: Kind, f: Fields) -> Asking
    ensures { result ≡ asking_of kind f }
{
    Asking {
        kind,
        scaled: f.scaling == 1,
        count: f.count as usize,
        v: of_pattern(f.v),
        re: of_pattern(f.re),
        im: of_pattern(f.im),
    }
}

// None of malformed fields.
#[tactic(auto, using(std::proofs::lemmas::Bool::Decides::nat_tests), unfolding(crate::specs::Asking::asked_of))]
pub fn asked(f: Fields) -> Option<Asking>
    ensures { result ≡ asked_of f }
{
    if f.scaling > 1 {
        return None;
    }
    match f.kind {
        1 => Some(asking_of(Kind::K, f)),
        2 => Some(asking_of(Kind::I, f)),
        _ => None,
    }
}

#[tactic(auto, unfolding(crate::specs::Asking::asked_in, crate::specs::Asking::parsed_of))]
pub fn parse(line: &[u8]) -> Option<Asking>
    ensures { result ≡ parsed_of line.now }
{
    asked(read_asking(line)?)
}

// The line of the fields, from the place `at` on; of a number too large for its place the last digits.
pub fn write_asking(f: Fields, out: &mut [u8], at: usize)
    requires { at + asking_length ≤ length out.old }
    ensures { out.new ≡ over at (asking_line_of f) out.old }
{
    spell(f.kind, BYTE_WIDTH, out, at + KIND_AT);
    spell(f.scaling, BYTE_WIDTH, out, at + SCALING_AT);
    spell(f.count, COUNT_WIDTH, out, at + COUNT_AT);
    spell(f.v, FLOAT_WIDTH, out, at + ORDER_AT);
    spell(f.re, FLOAT_WIDTH, out, at + RE_AT);
    spell(f.im, FLOAT_WIDTH, out, at + IM_AT);
}
