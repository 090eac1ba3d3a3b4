// What a sweep is asked for by: numbers as a frame has them, and the values of the order and of the ends.
// From docs/SCOPE.md, The sweep. Promised: specs/Points.antt and specs/Line.antt.
ghost use Rattle.std.specs.Prelude.{◌≡◌, true, length};
ghost use Rattle.frame.specs.Digits.{are_digits};
ghost use Rattle.sweeping.specs.Points.{normalised_request};
ghost use Rattle.sweeping.specs.Line.{rest_length, request_from, requested_of};

use call::limits::normalised;
use frame::asking::{Fields, read_asking};
use frame::digits::{are_digits, number};
use frame::layout::ASKING_LENGTH;
use machine::bits::of_pattern;

const REQUEST_LENGTH: usize = 92;

// ---- behind the frame
const LAST_RE_AT: usize = 0;

const LAST_IM_AT: usize = 16;

const STEPS_AT: usize = 32;

const REST_LENGTH: usize = 36;

#[derive(Clone, Copy)]
pub struct Request {
    pub kind: u64,
    pub scaling: u64,
    pub count: u64,
    pub v: f64,
    pub first_re: f64,
    pub first_im: f64,
    pub last_re: f64,
    pub last_im: f64,
    pub steps: u32,
}

pub fn normalised_request(r: Request) -> Request
    ensures { result ≡ normalised_request r }
{
    Request {
        v: normalised(r.v),
        first_re: normalised(r.first_re),
        last_re: normalised(r.last_re),
        ..r
    }
}

// Whoever calls has looked at `rest`: request_from of specs/Line.antt is of bytes, and `number` asks that they are digits.
fn request_from(f: Fields, rest: &[u8]) -> Request
    requires { (length rest.now ≡ rest_length) × (are_digits rest.now ≡ true) }
    ensures { result ≡ request_from f rest.now }
{
    Request {
        kind: f.kind,
        scaling: f.scaling,
        count: f.count,
        v: of_pattern(f.v),
        first_re: of_pattern(f.re),
        first_im: of_pattern(f.im),
        last_re: of_pattern(number(&rest[LAST_RE_AT..LAST_IM_AT])),
        last_im: of_pattern(number(&rest[LAST_IM_AT..STEPS_AT])),
        steps: number(&rest[STEPS_AT..REST_LENGTH]) as u32,
    }
}

// The frame of the first point, and what stands behind it. None of any other line.
#[tactic(auto, using(std::proofs::lemmas::Bool::Decides::nat_tests), unfolding(crate::specs::Line::requested_of, crate::specs::Line::sought_in))]
pub fn read_request(line: &[u8]) -> Option<Request>
    ensures { result ≡ requested_of line.now }
{
    if line.len() != REQUEST_LENGTH {
        return None;
    }
    let (frame, rest) = line.split_at(ASKING_LENGTH);
    let f = read_asking(frame)?;
    if !are_digits(rest) {
        return None;
    }
    Some(request_from(f, rest))
}
