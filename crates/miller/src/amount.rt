// What Miller's backward steps and the ratio of the seeds are taken with: real numbers on the real path, complex ones off it. Promised:
// each operation is that of its kind, real_operations and complex_operations of specs/shapes/Operations.antt.
ghost use Rattle.std.specs.Prelude.{◌≡◌};
ghost use Rattle.miller.specs.shapes.Operations.{Operations, real_operations, complex_operations};

use complex::number::Complex;
use machine::magnitude::magnitude;

// It names its operations, where std's Add, Sub and Mul would do for some: so a clause has one ghost member to name, `does`, and not one of each.
pub trait Amount: Copy {
    ghost does: { Operations Self };

    fn from_real(x: f64) -> Self
        ensures { result ≡ does.from_real x };

    fn plus(self, w: Self) -> Self
        ensures { result ≡ does.plus self w };

    fn minus(self, w: Self) -> Self
        ensures { result ≡ does.minus self w };

    fn product(self, w: Self) -> Self
        ensures { result ≡ does.product self w };

    fn times_real(self, t: f64) -> Self
        ensures { result ≡ does.times_real self t };

    fn plus_real(self, t: f64) -> Self
        ensures { result ≡ does.plus_real self t };

    fn over_real(self, t: f64) -> Self
        ensures { result ≡ does.over_real self t };

    fn opposite(self) -> Self
        ensures { result ≡ does.opposite self };

    fn conjugate(self) -> Self
        ensures { result ≡ does.conjugate self };

    fn modulus(self) -> f64
        ensures { result ≡ does.modulus self };

    fn quotient(self, w: Self) -> Self
        ensures { result ≡ does.quotient self w };
}

impl Amount for f64 {
    ghost does = { real_operations };

    fn from_real(x: f64) -> f64 {
        x
    }

    fn plus(self, w: f64) -> f64 {
        self + w
    }

    fn minus(self, w: f64) -> f64 {
        self - w
    }

    fn product(self, w: f64) -> f64 {
        self * w
    }

    fn times_real(self, t: f64) -> f64 {
        self * t
    }

    fn plus_real(self, t: f64) -> f64 {
        self + t
    }

    fn over_real(self, t: f64) -> f64 {
        self / t
    }

    fn opposite(self) -> f64 {
        -self
    }

    fn conjugate(self) -> f64 {
        self
    }

    fn modulus(self) -> f64 {
        magnitude(self)
    }

    fn quotient(self, w: f64) -> f64 {
        self / w
    }
}

impl Amount for Complex {
    ghost does = { complex_operations };

    fn from_real(x: f64) -> Complex {
        Complex { re: x, im: 0.0 }
    }

    fn plus(self, w: Complex) -> Complex {
        Complex::plus(self, w)
    }

    fn minus(self, w: Complex) -> Complex {
        Complex::minus(self, w)
    }

    fn product(self, w: Complex) -> Complex {
        Complex::product(self, w)
    }

    fn times_real(self, t: f64) -> Complex {
        Complex::times_real(self, t)
    }

    fn plus_real(self, t: f64) -> Complex {
        Complex::plus_real(self, t)
    }

    fn over_real(self, t: f64) -> Complex {
        Complex::over_real(self, t)
    }

    fn opposite(self) -> Complex {
        Complex::opposite(self)
    }

    fn conjugate(self) -> Complex {
        Complex::conjugate(self)
    }

    fn modulus(self) -> f64 {
        Complex::modulus(self)
    }

    fn quotient(self, w: Complex) -> Complex {
        Complex::quotient(self, w)
    }
}
