// What a line of a night says: an answer line by its layout, with a number that there is and a sum that can be; any other line is unreadable.
// From docs/SCOPE.md, The page. Promised: specs/Saying.antt.
ghost use Rattle.std.specs.Prelude.{◌≡◌, nat_abs};
ghost use Rattle.page.specs.Saying.{is_known, said_in};

use crate::layout::LONGEST;
use frame::reading::Record;
use refusal::refusal::is_listed;

#[tactic(auto, using(std::proofs::lemmas::Bool::Decides::nat_tests), unfolding(crate::specs::Saying::is_known))]
fn is_known(r: Record) -> bool
    ensures { result ≡ is_known r }
{
    r.longest_sum <= LONGEST && (r.number == 0 || is_listed(r.number))
}

#[tactic(auto, unfolding(crate::specs::Saying::said_in))]
pub fn said(reading: Option<Record>) -> Option<Record>
    ensures { result ≡ said_in reading }
{
    reading.filter(|r| is_known(*r))
}

// A count of zeros without its sign.
pub fn magnitude(zeros: i32) -> u64
    ensures { result ≡ nat_abs zeros }
{
    u64::from(zeros.unsigned_abs())
}
