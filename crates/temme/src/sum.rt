// Temme's sum: two series in z²/4 that share their terms, K(ν) and (z/2) K(ν+1). From src/amos/right_half_plane.rs,
// compute_small_z_power_series (ZBKNU). Promised: specs/Sum.antt, each operation in the order of the Rust text; the step that adds a term
// counts it. For |z| to 2 the sum leaves by its own test within 18 terms (proofs/TemmeBound.antt), so that the bound of 999 never decides.
ghost use Rattle.std.specs.Prelude.{◌≡◌, ◌<◌};
ghost use Rattle.temme.specs.Sum.{next_terms, sum_of};

use crate::shares::shares;
use complex::number::Complex;
use machine::constants::Machine;

// What each turn takes: z²/4, |z|²/4, the fraction ν and its square.
#[derive(Clone, Copy)]
pub struct Fixed {
    pub z_sqr_over_4: Complex,
    pub abs_z_sqr_over_4: f64,
    pub fraction: f64,
    pub fraction_square: f64,
}

// A sum under way, in the Rust's names, and how many terms were added.
#[derive(Clone, Copy)]
pub struct Terms {
    pub temme_coeff: Complex,
    pub neg_order_term: Complex,
    pub pos_order_term: Complex,
    pub taylor_factor: Complex,
    pub term_magnitude: f64,
    pub sum_k_nu: Complex,
    pub sum_k_nu_plus_1: Complex,
    pub terms: u32,
}

fn next(g: Fixed, s: Terms) -> Terms
    requires { s.terms < 999 }
    ensures { result ≡ next_terms g s }
{
    let terms = s.terms + 1;
    let k = terms as f64;
    let share = shares(g.fraction, g.fraction_square, terms);
    let temme_coeff = s
        .temme_coeff
        .times_real(k)
        .plus(s.neg_order_term)
        .plus(s.pos_order_term)
        .times_real(share.of_denominator);
    let neg_order_term = s.neg_order_term.times_real(share.of_lower);
    let pos_order_term = s.pos_order_term.times_real(share.of_upper);
    let taylor_factor = s
        .taylor_factor
        .product(g.z_sqr_over_4.times_real(share.of_k));
    let bracket = neg_order_term.minus(temme_coeff.times_real(k));
    Terms {
        temme_coeff,
        neg_order_term,
        pos_order_term,
        taylor_factor,
        term_magnitude: s.term_magnitude * (g.abs_z_sqr_over_4 * share.of_k),
        sum_k_nu: s.sum_k_nu.plus(taylor_factor.product(temme_coeff)),
        sum_k_nu_plus_1: s.sum_k_nu_plus_1.plus(taylor_factor.product(bracket)),
        terms,
    }
}

pub fn sum(g: Fixed, start: Terms) -> Terms
    requires { start.terms ≡ 0 }
    ensures { result ≡ sum_of g start }
{
    let mut s = start;
    for _ in 0..999u32 {
        if s.term_magnitude <= Machine::TOLERANCE {
            return s;
        }
        s = next(g, s);
    }
    s
}
