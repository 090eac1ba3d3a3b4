// An order that is seeded by its sum, or set to zero. From i_power_series in src/amos/power_series.rs (ZSERI, from 20 to 90).
// Promised: seed_of of specs/Seed.antt.
ghost use Rattle.std.specs.Prelude.{◌≡◌, ◌+◌, ◌<◌, ◌^◌};
ghost use Rattle.series_step.specs.Seed.{zeroed_of, seed_or, kept_of, coefficient_of, is_gone, summed_of, seed_of};

use crate::descent::{Descent, Tally};
use crate::leading::leading;
use crate::mark::marked;
use crate::setting::Setting;
use complex::lost::lost;
use complex::number::Complex;
use machine::constants::Machine;
use series_sum::sum::single_n_iteration;

// The bounds on the zeros and on the seeded orders, here and in `kept`, `summed` and `seed`, stand in clauses, and in no type: zeroed_of, kept_of,
// summed_of and seed_of of specs/Seed.antt are definitions over every state, and build it field by field, with no place for a proof.
fn zeroed(g: Setting, order: f64, s: Descent) -> Descent
    requires { s.counts.zeros + 1 < 2 ^ 32 }
    ensures { result ≡ zeroed_of g order s }
{
    let c = s.counts;
    Descent {
        above: Complex::ZERO,
        counts: Tally {
            zeros: c.zeros + 1,
            ..c
        },
        stopped: g.abs_half_z_sq > order,
        ..s
    }
}

fn seed_or(seeds: bool, value: Complex, other: Complex) -> Complex
    ensures { result ≡ seed_or seeds value other }
{
    if seeds {
        return value;
    }
    other
}

// the first seed is the older value, the second the newer one
pub fn kept(value: Complex, s: Descent) -> Descent
    requires { s.seeded < 2 }
    ensures { result ≡ kept_of value s }
{
    let first = s.seeded == 0;
    Descent {
        y_k_plus_2: seed_or(first, value, s.y_k_plus_2),
        y_k_plus_1: seed_or(!first, value, s.y_k_plus_1),
        above: value * s.scale_factor,
        seeded: s.seeded + 1,
        stopped: false,
        ..s
    }
}

fn coefficient(lead: Complex, near_underflow: bool) -> Complex
    ensures { result ≡ coefficient_of lead near_underflow }
{
    let whole = lead.exp();
    if near_underflow {
        return whole * Machine::INVERSE_TOLERANCE;
    }
    whole
}

fn is_gone(near_underflow: bool, value: Complex) -> bool
    ensures { result ≡ is_gone near_underflow value }
{
    near_underflow && lost(value)
}

fn summed(g: Setting, order: f64, lead: Complex, s: Descent) -> Descent
    requires { (s.seeded < 2) × (s.counts.zeros + 1 < 2 ^ 32) }
    ensures { result ≡ summed_of g order lead s }
{
    let sum = single_n_iteration(order, g.half_z_sq, g.abs_half_z_sq);
    let m = marked(lead.re, sum.terms, s);
    let value = sum.value * coefficient(lead, m.near_underflow);
    if is_gone(m.near_underflow, value) {
        return zeroed(g, order, m);
    }
    kept(value, m)
}

pub fn seed(g: Setting, order: f64, s: Descent) -> Descent
    requires { (s.seeded < 2) × (s.counts.zeros + 1 < 2 ^ 32) }
    ensures { result ≡ seed_of g order s }
{
    let lead = leading(g, order);
    if lead.re <= -Machine::EXPONENT_LIMIT {
        return zeroed(g, order, s);
    }
    summed(g, order, lead, s)
}
