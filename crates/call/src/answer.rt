// What a call returns: the counts of an answer, or the refusal that stands in its place.
// From docs/SCOPE.md, Domain and refusals. Promised: specs/Answer.antt. What C is handed is a projection of it.
ghost use Rattle.std.specs.Prelude.{◌≡◌, ◌<◌, ◌^◌};
ghost use Rattle.call.specs.Answer.{signed_of};

use refusal::refusal::Refusal;

#[derive(Clone, Copy, Debug, PartialEq, Eq)]
pub struct Counts {
    pub zeros: i32,
    pub longest_sum: u32,
    pub rungs: u32,
    pub backward: u32,
}

pub type Answer = Result<Counts, Refusal>;

// The count of zeros, negative where a visit stopped before its end.
pub fn signed(stopped: bool, count: u32) -> i32
    requires { count < 2 ^ 31 }
    ensures { result ≡ signed_of stopped count }
{
    let count = count as i32;
    if stopped { -count } else { count }
}
