// The entry point of K: n consecutive orders from v up at z = re + im·i, plain or times e^z, into the lent cells, re before im.
// From src/amos/right_half_plane.rs, k_right_half_plane (ZBKNU), behind the checks that docs/SCOPE.md settles.
// Promised for every input: k_outcome of specs/K.antt, the answer and every cell.
ghost use Rattle.std.specs.Prelude.{◌≡◌, true, T, length};
ghost use Rattle.std.specs.Float.Ieee.{le};
ghost use Rattle.laws.proofs.Relative.{nonnegative};
ghost use Rattle.complex.specs.Functions.{modulus_of};
ghost use Rattle.call.specs.Limits.{largest_order, length_inside};
ghost use Rattle.bessel.specs.Outcome.{concluded_of};
ghost use Rattle.bessel.specs.K.{Fewer, kernel_steps, k_steps, k_outcome};

use crate::arguments::{Arguments, prepare};
use crate::checks::k_verdict;
use crate::outcome::{judge, refuse};
use call::answer::{Answer, Counts, signed};
use refusal::refusal::Refusal;
use right_half_plane::kernel;

// Every entry of an answer is finished; a refusal has left the cells as they were, and they are filled here. The counts go over field by field, as
// counts_answer has it, and by no `From`: `signed` asks for a count below 2^31, which the clause Fewer gives here, and `from` may ask for nothing.
fn concluded(ending: Result<kernel::Counts, Refusal>, out: &mut [f64]) -> Answer
    requires { Fewer ending }
    ensures { (result ≡ (concluded_of (length out.old) (kernel_steps ending out.old)).answer)
        × (out.new ≡ (concluded_of (length out.old) (kernel_steps ending out.old)).cells) }
{
    match ending {
        Ok(c) => judge(
            Ok(Counts {
                zeros: signed(false, c.zeros),
                longest_sum: c.longest_sum,
                rungs: c.rungs,
                backward: c.backward,
            }),
            0,
            out,
        ),
        Err(refusal) => refuse(refusal, out),
    }
}

// What is asked of the order and of the modulus is no fact of Arguments: k_checks and k_steps, and the theorem `listed` of proofs/KernelOutcome.antt, are
// about any three numbers. The checks give it (proofs/ArgumentFacts.antt).
fn by_kernel(scaled: bool, a: Arguments, out: &mut [f64]) -> Answer
    requires { (length_inside (length out.old) ≡ true)
        × T (nonnegative a.order)
        × T (le a.order largest_order)
        × (a.modulus ≡ modulus_of a.z) }
    ensures { (result ≡ (concluded_of (length out.old) (k_steps scaled a (length out.old))).answer)
        × (out.new ≡ (concluded_of (length out.old) (k_steps scaled a (length out.old))).cells) }
{
    let z = a.z;
    let ending = kernel::k_right_half_plane(scaled, a.order, z, a.modulus, out);
    concluded(ending, out)
}

pub fn k(scaled: bool, v: f64, re: f64, im: f64, out: &mut [f64]) -> Answer
    ensures { (result ≡ (k_outcome scaled v re im (length out.old)).answer)
        × (out.new ≡ (k_outcome scaled v re im (length out.old)).cells) }
{
    let a = prepare(v, re, im);
    let verdict = k_verdict(a, out.len());
    match verdict {
        Ok(()) => by_kernel(scaled, a, out),
        Err(refusal) => refuse(refusal, out),
    }
}
