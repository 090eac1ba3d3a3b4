// The magnitude of any f64, which is the value with the sign's bit taken off, and the test of it against a number above zero, which needs none.
// A not-a-number has no pattern to take the bit from, and is its own magnitude.
ghost use Rattle.std.specs.Prelude.{◌≡◌, T};
ghost use Rattle.std.specs.Float.{binary64};
ghost use Rattle.std.specs.Float.Ieee.{of_bits, lt};
ghost use Rattle.machine.specs.Magnitude.{magnitude_of};

// `x.abs()` of the library has the same value by two comparisons with 0 and a choice, this by one operation on the bits.
pub fn magnitude(x: f64) -> f64
    ensures { result ≡ magnitude_of x }
{
    if x != x {
        return x;
    }
    f64::from_bits(f64::to_bits(x) % 0x8000000000000000)
}

// a magnitude above b, by two comparisons of the value itself
pub fn outside(b: f64, x: f64) -> bool
    requires { T (lt (of_bits binary64 0) b) }
    ensures { result ≡ lt b (magnitude_of x) }
{
    if x > b {
        return true;
    }
    x < -b
}
