// What Miller's method is asked with. Both structs hold what a call works out once.
// From src/amos/right_half_plane.rs. Promised: specs/Point.antt; a zero imaginary part of either sign is the real path's.
ghost use Rattle.std.specs.Prelude.{◌≡◌};
ghost use Rattle.miller.specs.Point.{is_real, point_of};

use complex::number::Complex;
use roots::sqrt::sqrt;

// An argument, its modulus, which is its real part on the real path, the root of that, and the angle, which the real path does not ask for.
#[derive(Clone, Copy)]
pub struct Point {
    pub z: Complex,
    pub modulus: f64,
    pub root: f64,
    pub angle: f64,
}

// The order's signed fraction, its square, |cos(π fraction)|, and |1/4 - square|.
#[derive(Clone, Copy)]
pub struct Order {
    pub fraction: f64,
    pub square: f64,
    pub rotation: f64,
    pub distance: f64,
}

pub fn is_real(z: Complex) -> bool
    ensures { result ≡ is_real z }
{
    z.im == 0.0
}

// The point of an argument on the real path. Off it the caller has the modulus, its root and the angle already.
pub fn at(z: Complex) -> Point
    ensures { result ≡ point_of z }
{
    Point {
        z,
        modulus: z.re,
        root: sqrt(z.re),
        angle: 0.0,
    }
}
