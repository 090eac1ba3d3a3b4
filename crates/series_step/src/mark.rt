// The near-underflow mark, the scale that comes with it, and the longest sum so far. From i_power_series in src/amos/power_series.rs
// (ZSERI's IFLAG and CRSCR). Promised: marked_of of specs/Mark.antt. A mark once set stays: only the recurrence clears it.
ghost use Rattle.std.specs.Prelude.{◌≡◌};
ghost use Rattle.series_step.specs.Mark.{mark_of, scale_of, longest_of, marked_of};

use crate::descent::{Descent, Tally};
use machine::constants::Machine;

fn mark(exponent: f64, near_underflow: bool) -> bool
    ensures { result ≡ mark_of exponent near_underflow }
{
    exponent <= -Machine::APPROXIMATION_LIMIT || near_underflow
}

fn scale(exponent: f64, scale_factor: f64) -> f64
    ensures { result ≡ scale_of exponent scale_factor }
{
    if exponent <= -Machine::APPROXIMATION_LIMIT {
        return Machine::TOLERANCE;
    }
    scale_factor
}

fn longest(terms: u32, longest_sum: u32) -> u32
    ensures { result ≡ longest_of terms longest_sum }
{
    longest_sum.max(terms)
}

pub fn marked(exponent: f64, terms: u32, s: Descent) -> Descent
    ensures { result ≡ marked_of exponent terms s }
{
    let c = s.counts;
    Descent {
        scale_factor: scale(exponent, s.scale_factor),
        counts: Tally {
            longest_sum: longest(terms, c.longest_sum),
            ..c
        },
        near_underflow: mark(exponent, s.near_underflow),
        ..s
    }
}
