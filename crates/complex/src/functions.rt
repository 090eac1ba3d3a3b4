// The functions of a complex number, by their real formulas. From num's complex::Complex and src/amos/utils.rs, two_over_z_safe.
// Promised: each is its definition in specs/Functions.antt, for every pair of parts. A form that takes what its caller has
// already worked out, the modulus, the angle or a root, is the plain one with that put in.
ghost use Rattle.std.specs.Prelude.{◌≡◌};
ghost use Rattle.complex.specs.Functions.{modulus_of, argument_of, ln_with, complex_ln_of, polar_of, at_half_angle, two_over_with};
ghost use Rattle.complex.specs.Functions.{complex_exp_of, complex_cosh_of, complex_sinh_of};

use crate::number::Complex;
use angle::angle::angle;
use circular::sin_cos::sin_cos;
use exponential::{cosh, exp, sinh};
use logarithm::ln;
use roots::hypot::hypot;

// Three functions of one number, which share the sine and the cosine of its imaginary part.
#[derive(Clone, Copy)]
pub struct ExpCoshSinh {
    pub exp: Complex,
    pub cosh: Complex,
    pub sinh: Complex,
}

impl Complex {
    pub fn modulus(self) -> f64
        ensures { result ≡ modulus_of self }
    {
        hypot(self.re, self.im)
    }

    pub fn argument(self) -> f64
        ensures { result ≡ argument_of self }
    {
        angle(self.im, self.re)
    }

    pub fn ln(self) -> Complex
        ensures { result ≡ complex_ln_of self }
    {
        ln_with(self.modulus(), self.argument())
    }

    pub fn exp(self) -> Complex
        ensures { result ≡ complex_exp_of self }
    {
        polar(exp::exp(self.re), self.im)
    }

    // 2/z from the modulus of z; by way of a number of modulus 1, so that no square of it overflows or underflows
    pub fn two_over_with(self, modulus: f64) -> Complex
        ensures { result ≡ two_over_with self modulus }
    {
        let t = 1.0 / modulus;
        let s = self.conjugate() * t;
        (s + s) * t
    }
}

// the point at the distance r and the angle h
pub fn polar(r: f64, h: f64) -> Complex
    ensures { result ≡ polar_of r h }
{
    let turn = sin_cos(h);
    Complex {
        re: r * turn.cos,
        im: r * turn.sin,
    }
}

// the square root from the root of the modulus, and from the angle
pub fn at_half_angle(root: f64, angle: f64) -> Complex
    ensures { result ≡ at_half_angle root angle }
{
    polar(root, angle / 2.0)
}

// ln z from the modulus and the angle
pub fn ln_with(modulus: f64, angle: f64) -> Complex
    ensures { result ≡ ln_with modulus angle }
{
    Complex {
        re: ln::ln(modulus),
        im: angle,
    }
}

// With nothing to work out at 0.
pub fn exp_cosh_sinh(z: Complex) -> ExpCoshSinh
    ensures { (result.exp ≡ complex_exp_of z) × (result.cosh ≡ complex_cosh_of z) × (result.sinh ≡ complex_sinh_of z) }
{
    if z.re == 0.0 && z.im == 0.0 {
        return ExpCoshSinh {
            exp: Complex { re: 1.0, im: z.im },
            cosh: Complex {
                re: 1.0,
                im: z.re * z.im,
            },
            sinh: z,
        };
    }
    off_zero(z)
}

fn off_zero(z: Complex) -> ExpCoshSinh
    ensures { (result.exp ≡ complex_exp_of z) × (result.cosh ≡ complex_cosh_of z) × (result.sinh ≡ complex_sinh_of z) }
{
    let turn = sin_cos(z.im);
    let sin = turn.sin;
    let cos = turn.cos;
    let r = exp::exp(z.re);
    let c = cosh::cosh(z.re);
    let s = sinh::sinh(z.re);
    ExpCoshSinh {
        exp: Complex {
            re: r * cos,
            im: r * sin,
        },
        cosh: Complex {
            re: c * cos,
            im: s * sin,
        },
        sinh: Complex {
            re: s * cos,
            im: c * sin,
        },
    }
}
