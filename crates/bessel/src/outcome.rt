// How a call ends, its answer and the cells together: refused, with the fixed not-a-number in every cell, or judged by its finished entries.
// From docs/SCOPE.md, Domain and refusals. Promised: specs/Outcome.antt. Entries below the index `from` are not finished, and refusal 8 passes them by.
ghost use Rattle.std.specs.Prelude.{◌≡◌, length};
ghost use Rattle.bessel.specs.Outcome.{refused_outcome, judged_of};

use call::answer::Answer;
use cells::all_finite::all_finite;
use cells::fill::fill;
use machine::constants::not_a_number;
use refusal::refusal::Refusal;

#[tactic(auto, unfolding(crate::specs::Outcome::refused_outcome, call::specs::Answer::refused_of))]
pub fn refuse(refusal: Refusal, out: &mut [f64]) -> Answer
    ensures { (result ≡ (refused_outcome refusal (length out.old)).answer)
        × (out.new ≡ (refused_outcome refusal (length out.old)).cells) }
{
    fill(out, not_a_number());
    Err(refusal)
}

#[tactic(auto, unfolding(crate::specs::Outcome::judged_of, crate::specs::Outcome::judged_if))]
pub fn judge(answer: Answer, from: usize, out: &mut [f64]) -> Answer
    ensures { (result ≡ (judged_of (length out.old) answer from out.old).answer)
        × (out.new ≡ (judged_of (length out.old) answer from out.old).cells) }
{
    if all_finite(out, from) {
        answer
    } else {
        refuse(Refusal::Overflow, out)
    }
}
