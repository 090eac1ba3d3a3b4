// The search for two neighbouring orders on scale: from two values that stand without e^-z, rung after rung, each value tried. It serves the first
// orders on scale (ZKSCL; src/amos/recurrence.rs, scale_k_recurrence) and the climb out of underflow (ZBKNU, DO 262; src/amos/right_half_plane.rs,
// k_right_half_plane), which differ in the rule of lowering alone. Promised: search_from of specs/Search.antt; each rung is counted once.
ghost use Rattle.std.specs.Prelude.{◌≡◌, ◌+◌, ◌<◌, ◌^◌};
ghost use Rattle.recurrence.specs.Rule.{FirstOrders, OutOfUnderflow};
ghost use Rattle.recurrence.specs.Search.{IsRuleOf, is_found, search_at, is_lowered, lowered_of, after_trial, search_step, search_from};

use crate::rung::Ladder;
use crate::trial::{later_trial, ln_magnitude, reaches_limit};
use complex::number::Complex;
use exponential::exp::exp;
use machine::constants::Machine;

// Two neighbouring values without e^-z, the argument as it was lowered, the trials of the two, and the rungs climbed.
#[derive(Clone, Copy)]
pub struct Search {
    pub older: Complex,
    pub newer: Complex,
    pub argument: Complex,
    pub before: Option<Complex>,
    pub latest: Option<Complex>,
    pub rungs: u32,
}

// which values are lowered
#[derive(Clone, Copy)]
pub enum Rule {
    FirstOrders,
    OutOfUnderflow,
}

pub fn is_found(s: Search) -> bool
    ensures { result ≡ is_found s }
{
    s.before.is_some() && s.latest.is_some()
}

// the search before its first rung
pub fn search_at(
    argument: Complex,
    older: Complex,
    newer: Complex,
    before: Option<Complex>,
    latest: Option<Complex>,
) -> Search
    ensures { result ≡ search_at argument older newer before latest }
{
    Search {
        older,
        newer,
        argument,
        before,
        latest,
        rungs: 0,
    }
}

// The rule of lowering, after a value that was not kept, is the one place where the two searches differ: that of the first orders ..
pub fn lowers_first_orders(_argument: Complex, l: f64) -> bool
    ensures { result ≡ is_lowered FirstOrders _argument l }
{
    l > 0.5 * Machine::EXPONENT_LIMIT
}

// .. and that of the climb out of underflow
pub fn lowers_out_of_underflow(argument: Complex, l: f64) -> bool
    ensures { result ≡ is_lowered OutOfUnderflow argument l }
{
    reaches_limit(argument, l) && !(l < 0.5 * Machine::EXPONENT_LIMIT)
}

fn lowered(s: Search) -> Search
    ensures { result ≡ lowered_of s }
{
    let factor = exp(-Machine::EXPONENT_LIMIT);
    Search {
        older: s.older.times_real(factor),
        newer: s.newer.times_real(factor),
        argument: s.argument.minus_real(Machine::EXPONENT_LIMIT),
        ..s
    }
}

fn after_trial<F: Fn(Complex, f64) -> bool + Copy>(is_lowered: F, l: f64, s: Search) -> Search
    requires { F.IsAlwaysCallable is_lowered }
    ensures { IsRuleOf (F.post is_lowered) (λ rule. result ≡ after_trial rule l s)
        × (result.rungs ≡ s.rungs) }
{
    if s.latest.is_some() {
        return s;
    }
    if is_lowered(s.argument, l) {
        return lowered(s);
    }
    s
}

fn search_step<F: Fn(Complex, f64) -> bool + Copy>(
    is_lowered: F,
    ladder: Ladder,
    i: u32,
    s: Search,
) -> Search
    requires callable { F.IsAlwaysCallable is_lowered }
    requires counted { s.rungs + 1 < 2 ^ 32 }
    ensures { IsRuleOf (F.post is_lowered) (λ rule. result ≡ search_step rule ladder.base_order ladder.two_over_z i s)
        × (result.rungs ≡ s.rungs + 1) }
{
    let next = ladder.next_value(i, s.older, s.newer);
    let l = ln_magnitude(next);
    let latest = later_trial(s.argument, next, l);
    after_trial(
        is_lowered,
        l,
        Search {
            older: s.newer,
            newer: next,
            argument: s.argument,
            before: s.latest,
            latest,
            rungs: s.rungs + 1,
        },
    )
}

// the search by the rule that `is_lowered` keeps to
pub fn searched_by<F: Fn(Complex, f64) -> bool + Copy>(
    is_lowered: F,
    base_order: f64,
    two_over_z: Complex,
    count: u32,
    start: Search,
) -> Search
    requires callable { F.IsAlwaysCallable is_lowered }
    requires counted { start.rungs + count < 2 ^ 31 }
    ensures { IsRuleOf (F.post is_lowered) (λ rule. result ≡ search_from rule base_order two_over_z count start) }
{
    let ladder = Ladder {
        two_over_z,
        base_order,
    };
    let mut s = start;
    for i in 1..=count {
        if is_found(s) {
            return s;
        }
        s = search_step(is_lowered, ladder, i, s);
    }
    s
}

// `count` rungs at most, until two neighbours are on scale
pub fn search_from(
    rule: Rule,
    base_order: f64,
    two_over_z: Complex,
    count: u32,
    start: Search,
) -> Search
    requires { start.rungs + count < 2 ^ 31 }
    ensures { result ≡ search_from rule base_order two_over_z count start }
{
    match rule {
        Rule::FirstOrders => searched_by(lowers_first_orders, base_order, two_over_z, count, start),
        Rule::OutOfUnderflow => searched_by(
            lowers_out_of_underflow,
            base_order,
            two_over_z,
            count,
            start,
        ),
    }
}
