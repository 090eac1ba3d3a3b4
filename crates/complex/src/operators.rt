// The signs of complex arithmetic: + - * / of two complex numbers, - of one, and + - * / with a real number on the right, which adds to the
// real part alone and multiplies or divides each part. From num's complex::Complex, without its scaled forms.
// Promised: each sign is its definition in specs/Arithmetic.antt, for every pair of parts; each may be used at all of them.
ghost use Rattle.std.specs.Prelude.{◌≡◌};
ghost use Rattle.complex.specs.Arithmetic.{plus_of, minus_of, opposite_of, product_of, quotient_of};
ghost use Rattle.complex.specs.Arithmetic.{times_real, over_real, plus_real, minus_real};

use crate::number::Complex;
use std::ops::{Add, Div, Mul, Neg, Sub};

impl Neg for Complex {
    type Output = Complex;

    ghost neg_gives = { λ z r. r ≡ opposite_of z };

    fn neg(self) -> Complex {
        Complex {
            re: -self.re,
            im: -self.im,
        }
    }
}

impl Add for Complex {
    type Output = Complex;

    ghost add_gives = { λ z w r. r ≡ plus_of z w };

    fn add(self, w: Complex) -> Complex {
        Complex {
            re: self.re + w.re,
            im: self.im + w.im,
        }
    }
}

impl Sub for Complex {
    type Output = Complex;

    ghost sub_gives = { λ z w r. r ≡ minus_of z w };

    fn sub(self, w: Complex) -> Complex {
        Complex {
            re: self.re - w.re,
            im: self.im - w.im,
        }
    }
}

impl Mul for Complex {
    type Output = Complex;

    ghost mul_gives = { λ z w r. r ≡ product_of z w };

    fn mul(self, w: Complex) -> Complex {
        Complex {
            re: self.re * w.re - self.im * w.im,
            im: self.re * w.im + self.im * w.re,
        }
    }
}

impl Div for Complex {
    type Output = Complex;

    ghost div_gives = { λ z w r. r ≡ quotient_of z w };

    fn div(self, w: Complex) -> Complex {
        let n = w.norm_square();
        Complex {
            re: (self.re * w.re + self.im * w.im) / n,
            im: (self.im * w.re - self.re * w.im) / n,
        }
    }
}

impl Add<f64> for Complex {
    type Output = Complex;

    ghost add_gives = { λ z t r. r ≡ plus_real z t };

    fn add(self, t: f64) -> Complex {
        Complex {
            re: self.re + t,
            im: self.im,
        }
    }
}

impl Sub<f64> for Complex {
    type Output = Complex;

    ghost sub_gives = { λ z t r. r ≡ minus_real z t };

    fn sub(self, t: f64) -> Complex {
        Complex {
            re: self.re - t,
            im: self.im,
        }
    }
}

impl Mul<f64> for Complex {
    type Output = Complex;

    ghost mul_gives = { λ z t r. r ≡ times_real z t };

    fn mul(self, t: f64) -> Complex {
        Complex {
            re: self.re * t,
            im: self.im * t,
        }
    }
}

impl Div<f64> for Complex {
    type Output = Complex;

    ghost div_gives = { λ z t r. r ≡ over_real z t };

    fn div(self, t: f64) -> Complex {
        Complex {
            re: self.re / t,
            im: self.im / t,
        }
    }
}
