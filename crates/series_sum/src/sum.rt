// The sum at one order, 1 + w/u + w²/(2 u (u + 1)) + .. with w = (z/2)² and u the order plus one: DLMF 10.25.2 without its leading factor.
// From src/amos/power_series.rs, single_n_iteration (the loop 60 of ZSERI). Promised: sum_of of specs/Sum.antt, with the number of terms
// after the leading 1. The bound of 19 terms never decides: a sum that meets Summed of proofs/SumBound.antt, as every sum of a visit does,
// leaves by its own test by then (proofs/SumEnds.antt).
ghost use Rattle.std.specs.Prelude.{◌≡◌, ◌≤◌, ◌<◌};
ghost use Rattle.series_sum.specs.Sum.{start_sum, next_sum, sum_of};
ghost use Rattle.series_sum.specs.shapes.Sum.{sum_rest};
ghost use Rattle.series_sum.specs.shapes.Sums.{outcome_of};

use complex::number::Complex;
use machine::constants::Machine;

#[derive(Clone, Copy)]
pub struct Sum {
    pub value: Complex,
    pub terms: u32,
}

impl Sum {
    // a sum that is 1 at once
    pub const ONE: Sum = Sum {
        value: Complex { re: 1.0, im: 0.0 },
        terms: 0,
    };
}

// The error estimate, the denominator of the next term, and by how much that grows.
#[derive(Clone, Copy)]
pub struct Estimate {
    pub error: f64,
    pub denominator: f64,
    pub step: f64,
}

// A sum under way, its last term, and how many terms are in it.
#[derive(Clone, Copy)]
pub struct Partial {
    pub value: Complex,
    pub term: Complex,
    pub estimate: Estimate,
    pub terms: u32,
}

// a sum that is at its end
impl From<Partial> for Sum {
    ghost from_gives = { λ s r. r ≡ outcome_of s };

    fn from(s: Partial) -> Sum {
        Sum {
            value: s.value,
            terms: s.terms,
        }
    }
}

// The square of z/2, or its opposite for J, and the square of |z/2|: what each term of a sum is made with.
#[derive(Clone, Copy)]
pub struct Squares {
    pub half_z_sq: Complex,
    pub abs_half_z_sq: f64,
}

pub fn start(order_plus_one: f64) -> Partial
    ensures { result ≡ start_sum order_plus_one }
{
    Partial {
        value: Complex::ONE,
        term: Complex::ONE,
        estimate: Estimate {
            error: 2.0,
            denominator: order_plus_one,
            step: order_plus_one + 2.0,
        },
        terms: 0,
    }
}

impl Squares {
    pub fn next(self, s: Partial) -> Partial
        requires { s.terms < 19 }
        ensures { result ≡ next_sum self.half_z_sq self.abs_half_z_sq s }
    {
        let e = s.estimate;
        let reciprocal = 1.0 / e.denominator;
        let term = s.term * (self.half_z_sq * reciprocal);
        Partial {
            value: s.value + term,
            term,
            estimate: Estimate {
                error: e.error * (self.abs_half_z_sq * reciprocal),
                denominator: e.denominator + e.step,
                step: e.step + 2.0,
            },
            terms: s.terms + 1,
        }
    }

    // the last turn that the bound leaves
    fn last(self, tolerance: f64, s: Partial) -> Partial
        requires { (18 ≤ s.terms) × (s.terms ≤ 19) }
        ensures { result ≡ sum_rest self.half_z_sq self.abs_half_z_sq tolerance s }
    {
        let e = s.estimate;
        if s.terms < 19 {
            if e.error > tolerance {
                return self.next(s);
            }
        }
        s
    }

    // Two turns at a time, so that a term stays in the registers in which it was worked out. The state counts its own terms:
    // `for _ in (begun.terms..18).step_by(2)` would count them a second time.
    pub fn finish(self, tolerance: f64, begun: Partial) -> Partial
        requires { begun.terms ≤ 19 }
        ensures { result ≡ sum_rest self.half_z_sq self.abs_half_z_sq tolerance begun }
    {
        let mut s = begun;
        while s.terms < 18 {
            let e = s.estimate;
            if e.error > tolerance {
                let t = self.next(s);
                let f = t.estimate;
                if f.error > tolerance {
                    s = self.next(t);
                } else {
                    return t;
                }
            } else {
                return s;
            }
        }
        self.last(tolerance, s)
    }
}

// The two squares stand apart here and in `two_sums`, as in sum_of of specs/Sum.antt, which both are; a caller has them as fields of its own, half_z_sq and
// abs_half_z_sq of Setting, which setting_of of series_step's specs/Setting.antt sets one by one.
pub fn single_n_iteration(order: f64, half_z_sq: Complex, abs_half_z_sq: f64) -> Sum
    ensures { result ≡ sum_of order half_z_sq abs_half_z_sq }
{
    let order_plus_one = order + 1.0;
    if abs_half_z_sq < Machine::TOLERANCE * order_plus_one {
        return Sum::ONE;
    }
    let tolerance = Machine::TOLERANCE * abs_half_z_sq / order_plus_one;
    let squares = Squares {
        half_z_sq,
        abs_half_z_sq,
    };
    Sum::from(squares.finish(tolerance, start(order_plus_one)))
}
