// The bits of any f64 and back, for every pattern: a not-a-number is always the fixed one. `f64::to_bits` and `f64::from_bits`, on which they
// stand, ask for a number.
ghost use Rattle.std.specs.Prelude.{◌≡◌, ◌-◌, ◌%◌, not, T};
ghost use Rattle.std.specs.Float.{binary64};
ghost use Rattle.std.specs.Float.Ieee.{to_bits, of_bits, is_nan};

use crate::constants::not_a_number;

// Of the fixed not-a-number's bits the logic's account and the machine's agree by construction: they are written here.
pub fn pattern(x: f64) -> u64
    ensures { result ≡ to_bits binary64 x }
{
    if x != x {
        return 0x7FF8000000000000;
    }
    f64::to_bits(x)
}

// Each of the 2^53 - 2 patterns of a not-a-number gives the fixed one.
pub fn of_pattern(b: u64) -> f64
    ensures { result ≡ of_bits binary64 b }
{
    if b % 0x8000000000000000 > 0x7FF0000000000000 {
        return not_a_number();
    }
    f64::from_bits(b)
}

// The leading 26 digits: a product of two such numbers is exact.
pub fn leading_digits(x: f64) -> f64
    requires { T (not (is_nan x)) }
    ensures { result ≡ of_bits binary64 (to_bits binary64 x - to_bits binary64 x % 0x8000000) }
{
    let bits = f64::to_bits(x);
    f64::from_bits(bits - bits % 0x8000000)
}
