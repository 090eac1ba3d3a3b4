// Whether a sweep is written: its checks, in their order, of a request whose zeros are made +0.
// From docs/SCOPE.md, The sweep. Promised: the verdict of the list of specs/Checks.antt, which is the order's one home.
ghost use Rattle.std.specs.Prelude.{◌≡◌};
ghost use Rattle.call.specs.Checks.{verdict_of};
ghost use Rattle.sweeping.specs.Checks.{steps_inside, count_inside, frame_has, of_ends, ends_finite, ends_signed, ends_sized, sweep_checks};

use crate::points::fields_with;
use crate::request::Request;
use call::checks::refused_if;
use call::limits::{are_finite, order_inside, sign_inside, size_inside};
use frame::asking::asked;
use refusal::refusal::Refusal;

// Each of the two ranges is a definition by itself, steps_inside and count_inside of specs/Checks.antt, as sweep_checks lists them.
const MOST_STEPS: u32 = 4096;

const MOST_ENTRIES: u64 = 512;

#[tactic(auto, using(std::proofs::lemmas::Bool::Decides::nat_tests), unfolding(crate::specs::Checks::steps_inside))]
fn steps_inside(steps: u32) -> bool
    ensures { result ≡ steps_inside steps }
{
    (1..=MOST_STEPS).contains(&steps)
}

#[tactic(auto, using(std::proofs::lemmas::Bool::Decides::nat_tests), unfolding(crate::specs::Checks::count_inside))]
fn count_inside(count: u64) -> bool
    ensures { result ≡ count_inside count }
{
    (1..=MOST_ENTRIES).contains(&count)
}

#[tactic(auto, unfolding(crate::specs::Checks::frame_has, crate::specs::Checks::is_asked))]
fn frame_has(r: Request) -> bool
    ensures { result ≡ frame_has r }
{
    asked(fields_with(r, r.first_re, r.first_im)).is_some()
}

// The last end is not looked at where the first is the only point.
#[tactic(auto, using(std::proofs::lemmas::Bool::Decides::nat_tests), unfolding(crate::specs::Checks::of_ends))]
fn of_ends(steps: u32, first: bool, last: bool) -> bool
    ensures { result ≡ of_ends steps first last }
{
    first && (steps == 1 || last)
}

#[tactic(auto, unfolding(crate::specs::Checks::ends_finite))]
fn ends_finite(r: Request) -> bool
    ensures { result ≡ ends_finite r }
{
    of_ends(
        r.steps,
        are_finite(r.v, r.first_re, r.first_im),
        are_finite(r.v, r.last_re, r.last_im),
    )
}

#[tactic(auto, unfolding(crate::specs::Checks::ends_signed))]
fn ends_signed(r: Request) -> bool
    ensures { result ≡ ends_signed r }
{
    of_ends(r.steps, sign_inside(r.first_re), sign_inside(r.last_re))
}

#[tactic(auto, unfolding(crate::specs::Checks::ends_sized))]
fn ends_sized(r: Request) -> bool
    ensures { result ≡ ends_sized r }
{
    of_ends(
        r.steps,
        size_inside(r.first_re, r.first_im),
        size_inside(r.last_re, r.last_im),
    )
}

pub fn sweep_verdict(r: Request) -> Result<(), Refusal>
    ensures { result ≡ verdict_of (sweep_checks r) }
{
    refused_if(!steps_inside(r.steps), Refusal::Steps)?;
    refused_if(!frame_has(r), Refusal::Malformed)?;
    refused_if(!count_inside(r.count), Refusal::Length)?;
    refused_if(!ends_finite(r), Refusal::NotFinite)?;
    refused_if(!order_inside(r.v), Refusal::Order)?;
    refused_if(!ends_signed(r), Refusal::Sign)?;
    refused_if(!ends_sized(r), Refusal::Size)
}
