// A call by the power series, for either sign of z²/4: the checks, the visit of the orders, and the judgement of the finished entries.
// From src/amos/right_half_plane.rs, i_right_half_plane (ZBINU), its power series path alone (ZSERI); DLMF 10.25.2.
// Promised for every input: series_outcome of specs/Series.antt, the answer and every cell.
ghost use Rattle.std.specs.Prelude.{◌≡◌, true, length};
ghost use Rattle.call.specs.Limits.{length_inside};
ghost use Rattle.bessel.specs.Outcome.{concluded_of};
ghost use Rattle.bessel.specs.Series.{visited_by, visit_steps, series_outcome};

use crate::arguments::{Arguments, prepare};
use crate::checks::series_verdict;
use crate::outcome::{judge, refuse};
use call::answer::{Answer, Counts, signed};
use power_series::series::power_series;

// Only the entries from the place where the visit stopped are finished: it is 0 where it did not stop. `scaled` and `turned` come apart, as visited_by and
// series_outcome take them, which the theorems quoted in docs/TRACE.md (M1, M2) name.
fn by_series(scaled: bool, turned: bool, a: Arguments, out: &mut [f64]) -> Answer
    requires { length_inside (length out.old) ≡ true }
    ensures { (result ≡ (concluded_of (length out.old) (visit_steps (visited_by scaled turned a (length out.old)))).answer)
        × (out.new ≡ (concluded_of (length out.old) (visit_steps (visited_by scaled turned a (length out.old)))).cells) }
{
    let z = a.z;
    let visit = power_series(scaled, turned, a.order, z, a.modulus, out);
    let counts = Counts {
        zeros: signed(visit.stopped, visit.zeros),
        longest_sum: visit.longest_sum,
        rungs: visit.rungs,
        backward: 0,
    };
    judge(Ok(counts), visit.place * 2, out)
}

pub fn series_call(scaled: bool, turned: bool, v: f64, re: f64, im: f64, out: &mut [f64]) -> Answer
    ensures { (result ≡ (series_outcome scaled turned v re im (length out.old)).answer)
        × (out.new ≡ (series_outcome scaled turned v re im (length out.old)).cells) }
{
    let a = prepare(v, re, im);
    let verdict = series_verdict(a, out.len());
    match verdict {
        Ok(()) => by_series(scaled, turned, a, out),
        Err(refusal) => refuse(refusal, out),
    }
}
