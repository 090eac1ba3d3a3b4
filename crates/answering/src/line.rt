// The answer line of a line, which is lent without its newline. It is written over the first of the lent bytes, and its length is returned.
// From docs/SCOPE.md, The frame program. Promised for every line: answer_line_of of specs/Line.antt. Where fewer bytes are lent than this line
// has, nothing is written; the length returned says how many it needs.
ghost use Rattle.std.specs.Prelude.{◌≡◌, length};
ghost use Rattle.frame.specs.Over.{offered};
ghost use Rattle.answering.specs.Line.{answer_line_of, parsed_line, bytes_into};

use crate::called::{answer_asking, refuse};
use frame::asking::{Asking, parse};
use refusal::refusal::Refusal;

// What was parsed, answered.
pub fn answer_parsed(parsed: Option<Asking>, out: &mut [u8]) -> usize
    ensures { (result ≡ length (parsed_line parsed))
        × (out.new ≡ offered (parsed_line parsed) out.old) }
{
    match parsed {
        Some(asking) => answer_asking(asking, out),
        None => refuse(Refusal::Malformed, out),
    }
}

pub fn answer_line(line: &[u8], out: &mut [u8]) -> usize
    ensures { (result ≡ length (answer_line_of line.now))
        × (out.new ≡ bytes_into out.old line.now) }
{
    answer_parsed(parse(line), out)
}
