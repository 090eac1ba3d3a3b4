// 1/Γ(1+ν) by log-gamma, 1/Γ(1-ν) by the reflection formula Γ(1-ν) Γ(1+ν) = πν / sin πν (DLMF 5.5.3), their mean and their difference over
// 2ν. From src/amos/right_half_plane.rs, one_over_sinc and compute_small_z_power_series. Promised for every f64: specs/Gammas.antt.
ghost use Rattle.std.specs.Prelude.{◌≡◌, false};
ghost use Rattle.std.specs.Float.{binary64};
ghost use Rattle.std.specs.Float.Ieee.{of_bits, eq};
ghost use Rattle.temme.specs.Gammas.{difference_quotient, gammas_of};

use crate::difference::difference;
use circular::sin_pi::sin_pi;
use exponential::exp::exp;
use machine::magnitude::magnitude;

// πν / sin πν, 1/Γ(1+ν), 1/Γ(1-ν), (1/Γ(1-ν) - 1/Γ(1+ν)) / 2ν, and (1/Γ(1-ν) + 1/Γ(1+ν)) / 2.
#[derive(Clone, Copy)]
pub struct Gammas {
    pub one_over_sinc: f64,
    pub plus: f64,
    pub minus: f64,
    pub difference: f64,
    pub mean: f64,
}

// At 0 every part but the difference is 1: no exponential, no log-gamma and no sine is worked out there.
pub fn gammas_at(fraction: f64, fraction_square: f64) -> Gammas
    ensures { result ≡ gammas_of fraction fraction_square }
{
    if fraction == 0.0 {
        return Gammas {
            one_over_sinc: 1.0,
            plus: 1.0,
            minus: 1.0,
            difference: difference(fraction_square),
            mean: 1.0,
        };
    }
    other(fraction, fraction_square)
}

fn other(fraction: f64, fraction_square: f64) -> Gammas
    requires { eq fraction (of_bits binary64 0) ≡ false }
    ensures { result ≡ gammas_of fraction fraction_square }
{
    let one_over_sinc = fraction * 3.141592653589793 / sin_pi(fraction);
    let plus = exp(-gamma_ln::gamma_ln::value(1.0 + fraction));
    let minus = 1.0 / (plus * one_over_sinc);
    Gammas {
        one_over_sinc,
        plus,
        minus,
        difference: quotient(fraction, fraction_square, plus, minus),
        mean: (minus + plus) * 0.5,
    }
}

// The plain quotient loses its digits near 0.
fn quotient(fraction: f64, fraction_square: f64, plus: f64, minus: f64) -> f64
    ensures { result ≡ difference_quotient fraction fraction_square plus minus }
{
    if magnitude(fraction) <= 0.1 {
        return difference(fraction_square);
    }
    (minus - plus) / (2.0 * fraction)
}
