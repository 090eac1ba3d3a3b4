// A complex number, and its plain arithmetic by name. From num's complex::Complex, without its scaled forms.
// Promised: each operation is its definition in specs/Arithmetic.antt, for every pair of parts. The signs + - * / for them are in
// operators.rt. The nine names beside the signs (plus, minus, opposite, product, quotient, times_real, over_real, plus_real, minus_real) stay:
// docs/TRACE.md (A1) states that each method ensures its definition, and quotes `product` and `quotient` as they stand here.
ghost use Rattle.std.specs.Prelude.{◌≡◌};
ghost use Rattle.complex.specs.Arithmetic.{plus_of, minus_of, opposite_of, conjugate_of, product_of, quotient_of};
ghost use Rattle.complex.specs.Arithmetic.{times_real, over_real, plus_real, minus_real, real_over, norm_square_of};

#[derive(Clone, Copy)]
pub struct Complex {
    pub re: f64,
    pub im: f64,
}

impl Complex {
    // both parts +0
    pub const ZERO: Complex = Complex { re: 0.0, im: 0.0 };

    pub const ONE: Complex = Complex { re: 1.0, im: 0.0 };

    pub fn plus(self, w: Complex) -> Complex
        ensures { result ≡ plus_of self w }
    {
        self + w
    }

    pub fn minus(self, w: Complex) -> Complex
        ensures { result ≡ minus_of self w }
    {
        self - w
    }

    pub fn opposite(self) -> Complex
        ensures { result ≡ opposite_of self }
    {
        -self
    }

    pub fn conjugate(self) -> Complex
        ensures { result ≡ conjugate_of self }
    {
        Complex {
            re: self.re,
            im: -self.im,
        }
    }

    pub fn product(self, w: Complex) -> Complex
        ensures { result ≡ product_of self w }
    {
        self * w
    }

    pub fn norm_square(self) -> f64
        ensures { result ≡ norm_square_of self }
    {
        self.re * self.re + self.im * self.im
    }

    pub fn quotient(self, w: Complex) -> Complex
        ensures { result ≡ quotient_of self w }
    {
        self / w
    }

    pub fn times_real(self, t: f64) -> Complex
        ensures { result ≡ times_real self t }
    {
        self * t
    }

    pub fn over_real(self, t: f64) -> Complex
        ensures { result ≡ over_real self t }
    {
        self / t
    }

    pub fn plus_real(self, t: f64) -> Complex
        ensures { result ≡ plus_real self t }
    {
        self + t
    }

    pub fn minus_real(self, t: f64) -> Complex
        ensures { result ≡ minus_real self t }
    {
        self - t
    }
}

// a number of the real line over a complex one, which is no product: (a, 0) / z
pub fn real_over(a: f64, z: Complex) -> Complex
    ensures { result ≡ real_over a z }
{
    Complex { re: a, im: 0.0 } / z
}
