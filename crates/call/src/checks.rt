// The checks of a call, one after the other: the first that applies refuses it, and none admits it. A caller goes by `?` through its own
// list, made of the shared parts below and of checks of its own, in the order in which its definition lists them.
// Promised: each is the verdict of its checks of specs/Checks.antt; proofs/FirstFacts.antt has the one theorem about any list.
ghost use Rattle.std.specs.Prelude.{◌≡◌};
ghost use Rattle.call.specs.Checks.{Admitted, refused_if, verdict_of, length_checks, finite_checks, limit_checks};

use crate::limits::{are_finite, length_inside, order_inside, sign_inside, size_inside};
use refusal::refusal::Refusal;

#[tactic(auto, unfolding(crate::specs::Checks::refused_if))]
pub fn refused_if(applies: bool, refusal: Refusal) -> Result<(), Refusal>
    ensures { result ≡ refused_if Admitted applies refusal }
{
    if applies {
        return Err(refusal);
    }
    Ok(())
}

#[tactic(auto, unfolding(crate::specs::Checks::verdict_of, crate::specs::Checks::verdict_from, crate::specs::Checks::length_checks))]
pub fn length_checked(length: usize) -> Result<(), Refusal>
    ensures { result ≡ verdict_of (length_checks length) }
{
    refused_if(!length_inside(length), Refusal::Length)
}

#[tactic(auto, unfolding(crate::specs::Checks::verdict_of, crate::specs::Checks::verdict_from, crate::specs::Checks::finite_checks))]
// The order and the two parts go one by one, here and below, as in finite_checks and limit_checks of specs/Checks.antt.
pub fn finite_checked(v: f64, re: f64, im: f64) -> Result<(), Refusal>
    ensures { result ≡ verdict_of (finite_checks v re im) }
{
    refused_if(!are_finite(v, re, im), Refusal::NotFinite)
}

pub fn limits_checked(v: f64, re: f64, im: f64) -> Result<(), Refusal>
    ensures { result ≡ verdict_of (limit_checks v re im) }
{
    refused_if(!order_inside(v), Refusal::Order)?;
    refused_if(!sign_inside(re), Refusal::Sign)?;
    refused_if(!size_inside(re, im), Refusal::Size)
}
