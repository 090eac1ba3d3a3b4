// The sums at two orders side by side, turn by turn while both go on: neither waits for the other's divisions and products.
// Promised: each is sum_of of specs/Sum.antt at its order.
ghost use Rattle.std.specs.Prelude.{◌≡◌, false, ◌≤◌, ◌<◌};
ghost use Rattle.series_sum.specs.Sum.{sum_unless, sum_of};
ghost use Rattle.series_sum.specs.shapes.Sum.{sum_rest};
ghost use Rattle.series_sum.specs.shapes.Sums.{outcome_of, one_or, both_go_on};

use crate::sum::{Partial, Squares, Sum, start};
use complex::number::Complex;
use machine::constants::Machine;

// What there is at the higher and at the lower of two orders.
#[derive(Clone, Copy)]
pub struct Two<T> {
    pub higher: T,
    pub lower: T,
}

fn both_go_on(t: Two<f64>, higher: Partial, lower: Partial) -> bool
    ensures { result ≡ both_go_on t.higher t.lower higher lower }
{
    let a = higher.estimate;
    let b = lower.estimate;
    a.error > t.higher && b.error > t.lower
}

// Two turns at a time, so that a term stays in the registers in which it was worked out. The states count their own terms:
// `for _ in (begun.higher.terms..18).step_by(2)` would count them a second time.
fn side_by_side(w: Squares, t: Two<f64>, begun: Two<Partial>) -> Two<Partial>
    requires { (begun.higher.terms ≤ 19) × (begun.lower.terms ≡ begun.higher.terms) }
    ensures { (result.higher.terms ≤ 19)
        × (result.lower.terms ≡ result.higher.terms)
        × (sum_rest w.half_z_sq w.abs_half_z_sq t.higher begun.higher ≡ sum_rest w.half_z_sq w.abs_half_z_sq t.higher result.higher)
        × (sum_rest w.half_z_sq w.abs_half_z_sq t.lower begun.lower ≡ sum_rest w.half_z_sq w.abs_half_z_sq t.lower result.lower) }
{
    let mut higher = begun.higher;
    let mut lower = begun.lower;
    while higher.terms < 18 {
        if !both_go_on(t, higher, lower) {
            return Two { higher, lower };
        }
        let h = w.next(higher);
        let l = w.next(lower);
        if !both_go_on(t, h, l) {
            return Two {
                higher: h,
                lower: l,
            };
        }
        higher = w.next(h);
        lower = w.next(l);
    }
    Two { higher, lower }
}

fn ended(w: Squares, tolerance: f64, s: Partial) -> Sum
    requires { s.terms ≤ 19 }
    ensures { result ≡ outcome_of (sum_rest w.half_z_sq w.abs_half_z_sq tolerance s) }
{
    let e = s.estimate;
    if e.error > tolerance {
        return Sum::from(w.finish(tolerance, s));
    }
    Sum::from(s)
}

// u and v are the orders plus one
fn both(u: f64, v: f64, w: Squares) -> Two<Sum>
    ensures { (result.higher ≡ sum_unless false w.half_z_sq w.abs_half_z_sq u)
        × (result.lower ≡ sum_unless false w.half_z_sq w.abs_half_z_sq v) }
{
    let t = Two {
        higher: Machine::TOLERANCE * w.abs_half_z_sq / u,
        lower: Machine::TOLERANCE * w.abs_half_z_sq / v,
    };
    let begun = Two {
        higher: start(u),
        lower: start(v),
    };
    let reached = side_by_side(w, t, begun);
    Two {
        higher: ended(w, t.higher, reached.higher),
        lower: ended(w, t.lower, reached.lower),
    }
}

fn one_or(is_one: bool, s: Sum) -> Sum
    ensures { result ≡ one_or is_one s }
{
    if is_one {
        return Sum::ONE;
    }
    s
}

// A sum that is 1 at once is taken nevertheless, and put aside: with no way around them the sums stay in registers.
pub fn two_sums(higher: f64, lower: f64, half_z_sq: Complex, abs_half_z_sq: f64) -> Two<Sum>
    ensures { (result.higher ≡ sum_of higher half_z_sq abs_half_z_sq)
        × (result.lower ≡ sum_of lower half_z_sq abs_half_z_sq) }
{
    let u = higher + 1.0;
    let v = lower + 1.0;
    let squares = Squares {
        half_z_sq,
        abs_half_z_sq,
    };
    let s = both(u, v, squares);
    Two {
        higher: one_or(abs_half_z_sq < Machine::TOLERANCE * u, s.higher),
        lower: one_or(abs_half_z_sq < Machine::TOLERANCE * v, s.lower),
    }
}
