// The two seeds from Temme's sum, and sinh μ over the fraction with μ = fraction · ln(2/z), by which the caller tells an overflow.
// From src/amos/right_half_plane.rs, compute_small_z_power_series (ZBKNU). Promised for every argument: specs/Seeds.antt; below |z| = 2^-52
// no term is added.
ghost use Rattle.std.specs.Prelude.{◌≡◌};
ghost use Rattle.temme.specs.Seeds.{shinc_of, begun_of, start_of, fixed_of, summed_of, seeds_of};

use crate::gammas::{Gammas, gammas_at};
use crate::sum::{Fixed, Terms, sum};
use complex::functions::exp_cosh_sinh;
use complex::number::{Complex, real_over};
use complex::power::square;
use machine::constants::Machine;

#[derive(Clone, Copy)]
pub struct Temme {
    pub first: Complex,
    pub second: Complex,
    pub shinc: Complex,
    pub terms: u32,
}

// The fraction and its square are the caller's numbers and the definitions' too, here, in the functions below, in gammas.rt and in shares.rt.
// In one struct each use would take them apart again, as in `gammas_at(Fraction { value: fraction, square: fraction_square })`.
pub fn seeds(
    z: Complex,
    modulus: f64,
    ln_two_over_z: Complex,
    fraction: f64,
    fraction_square: f64,
) -> Temme
    ensures { result ≡ seeds_of z modulus ln_two_over_z fraction fraction_square }
{
    let h = exp_cosh_sinh(ln_two_over_z.times_real(fraction));
    let shinc = over_fraction(ln_two_over_z, h.sinh, fraction);
    let begun = start(gammas_at(fraction, fraction_square), h.exp, h.cosh, shinc);
    let s = summed(z, modulus, fraction, fraction_square, begun);
    Temme {
        first: s.sum_k_nu,
        second: s.sum_k_nu_plus_1,
        shinc,
        terms: s.terms,
    }
}

fn over_fraction(ln_two_over_z: Complex, sinh: Complex, fraction: f64) -> Complex
    ensures { result ≡ shinc_of ln_two_over_z sinh fraction }
{
    if fraction == 0.0 {
        return ln_two_over_z;
    }
    sinh.over_real(fraction)
}

// At the fraction 0 e^μ is (1, ±0) and the reciprocal gammas are 1: nothing is divided there. Both terms stand behind one test, which stays
// a branch: behind a test of its own the first term's few divisions are done in either case, and the answer picked afterwards.
fn start(g: Gammas, exp: Complex, cosh: Complex, shinc: Complex) -> Terms
    ensures { result ≡ start_of g exp cosh shinc }
{
    let temme_coeff = cosh
        .times_real(g.difference)
        .plus(shinc.times_real(g.mean))
        .times_real(g.one_over_sinc);
    if g.plus == 1.0 && g.minus == 1.0 && exp.re == 1.0 && exp.im == 0.0 {
        let neg_order_term = Complex {
            re: 0.5,
            im: exp.im,
        };
        let pos_order_term = Complex { re: 0.5, im: 0.0 };
        return begun(temme_coeff, neg_order_term, pos_order_term);
    }
    let neg_order_term = exp.times_real(0.5).over_real(g.plus);
    let pos_order_term = real_over(0.5, exp).over_real(g.minus);
    begun(temme_coeff, neg_order_term, pos_order_term)
}

fn begun(temme_coeff: Complex, neg_order_term: Complex, pos_order_term: Complex) -> Terms
    ensures { result ≡ begun_of temme_coeff neg_order_term pos_order_term }
{
    Terms {
        temme_coeff,
        neg_order_term,
        pos_order_term,
        taylor_factor: Complex { re: 1.0, im: 0.0 },
        term_magnitude: 1.0,
        sum_k_nu: temme_coeff,
        sum_k_nu_plus_1: neg_order_term,
        terms: 0,
    }
}

fn fixed(z: Complex, modulus: f64, fraction: f64, fraction_square: f64) -> Fixed
    ensures { result ≡ fixed_of z modulus fraction fraction_square }
{
    Fixed {
        z_sqr_over_4: square(z).times_real(0.25),
        abs_z_sqr_over_4: 0.25 * modulus * modulus,
        fraction,
        fraction_square,
    }
}

fn summed(z: Complex, modulus: f64, fraction: f64, fraction_square: f64, begun: Terms) -> Terms
    requires { begun.terms ≡ 0 }
    ensures { result ≡ summed_of z modulus fraction fraction_square begun }
{
    if modulus >= Machine::TOLERANCE {
        return sum(fixed(z, modulus, fraction, fraction_square), begun);
    }
    begun
}
