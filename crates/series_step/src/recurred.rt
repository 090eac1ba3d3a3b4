// One step of the recurrence I(v-1) = (2v/z) I(v) + I(v+1), DLMF 10.29.1, downward; turned it subtracts, and is that of J (DLMF 10.6.1).
// From i_power_series in src/amos/power_series.rs (ZSERI, from 100 to 140). Promised: recurred_of of specs/Recurred.antt.
ghost use Rattle.std.specs.Prelude.{◌≡◌, false, ◌+◌, ◌<◌, ◌^◌};
ghost use Rattle.series_step.specs.Recurred.{backward_of, under_mark, recurred_if, recurred_of};

use crate::descent::{Descent, Tally};
use crate::setting::Setting;
use complex::number::Complex;
use machine::constants::Machine;

// The bounds on k, here and in `recurred`, and on the rungs stand in clauses, and in no type: backward_of and recurred_of of specs/Recurred.antt are
// definitions over every number k and every state, and start_descent and its like would have to carry proofs of a bound held in Descent or Tally.
// A turned setting subtracts: backward_if of specs/Recurred.antt has both signs, and the theorems on the series are for both (visit-sums-end and
// answered-sums-end, docs/TRACE.md), though I alone is exported.
pub fn backward(g: Setting, k: u32, older: Complex, newer: Complex) -> Complex
    requires { k + 1 < 2 ^ 32 }
    ensures { result ≡ backward_of g k older newer }
{
    let modified_order = f64::from(k + 1) + g.order;
    let product = g.two_over_z * newer * modified_order;
    if g.turned {
        return product - older;
    }
    product + older
}

// once an entry is large enough the registers take the entries themselves
fn under_mark(next: Complex, counts: Tally, s: Descent) -> Descent
    ensures { result ≡ under_mark next counts s }
{
    let entry = next * s.scale_factor;
    if entry.modulus() > Machine::ABSOLUTE_APPROXIMATION_LIMIT {
        return Descent {
            y_k_plus_2: s.above,
            y_k_plus_1: entry,
            above: entry,
            counts,
            near_underflow: false,
            stopped: false,
            ..s
        };
    }
    Descent {
        y_k_plus_2: s.y_k_plus_1,
        y_k_plus_1: next,
        above: entry,
        counts,
        near_underflow: true,
        stopped: false,
        ..s
    }
}

// without the mark the entry is the value
pub fn unmarked(next: Complex, counts: Tally, s: Descent) -> Descent
    ensures { result ≡ recurred_if false next counts s }
{
    Descent {
        y_k_plus_2: s.y_k_plus_1,
        y_k_plus_1: next,
        above: next,
        counts,
        near_underflow: false,
        stopped: false,
        ..s
    }
}

pub fn recurred(g: Setting, k: u32, s: Descent) -> Descent
    requires { (k + 1 < 2 ^ 32) × (s.counts.rungs + 1 < 2 ^ 32) }
    ensures { result ≡ recurred_of g k s }
{
    let c = s.counts;
    let next = backward(g, k, s.y_k_plus_2, s.y_k_plus_1);
    let counts = Tally {
        rungs: c.rungs + 1,
        ..c
    };
    if s.near_underflow {
        return under_mark(next, counts, s);
    }
    unmarked(next, counts, s)
}
