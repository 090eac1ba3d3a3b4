// One line counted as one too many, or not. Promised: one_unless of specs/Tally.antt.
ghost use Rattle.std.specs.Prelude.{◌≡◌, ◌+◌};
ghost use Rattle.call.specs.Checks.{number_given};
ghost use Rattle.splitting.specs.Count.{counted};
ghost use Rattle.morning.specs.Tally.{one_unless};

use refusal::refusal::Refusal;
use splitting::count::count;

// How many lines were too many, behind a line of which the page said this.
pub fn tally(refused: u64, added: Result<(), Refusal>) -> u64
    ensures { result ≡ counted (refused + one_unless (number_given added)) }
{
    count(refused, u64::from(added.is_err()))
}
