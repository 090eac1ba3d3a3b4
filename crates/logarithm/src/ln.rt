// The natural logarithm of any f64. Own design: a mantissa near 1 + j/128 times a short reciprocal c of that is 1 + r with r exact, and ln
// x = e ln 2 - ln c + ln(1 + r), the first two from tables in two parts, the last by a polynomial. Promised for every f64: the definition
// in specs/Ln.antt; finite above zero. Measured error at most 0.526 units in the last place, just below 1 - 1/512.
ghost use Rattle.std.specs.Prelude.{◌≡◌, ◌<◌};
ghost use Rattle.logarithm.specs.Ln.{ln_of, ln_wide, ln_narrow};

use logarithm_tables::tables::row_of;
use machine::constants::not_a_number;

// ln 2 in two parts: e times the first, and a logarithm of the table added, are exact
const LN2_HIGH: f64 = 0.6931471805598903;

const LN2_LOW: f64 = 5.497923018708371e-14;

pub fn ln(x: f64) -> f64
    ensures { result ≡ ln_of x }
{
    if x != x {
        return not_a_number();
    }
    let bits = f64::to_bits(x);
    if bits < 0x10000000000000 {
        if bits == 0 {
            return -1.0 / 0.0;
        }
        return of_narrow(bits);
    }
    if bits < 0x7FF0000000000000 {
        return of_wide(bits, 1023.0);
    }
    if bits == 0x7FF0000000000000 {
        return x;
    }
    if bits == 0x8000000000000000 {
        return -1.0 / 0.0;
    }
    not_a_number()
}

// A subnormal has no leading digit of its own: its digits are shifted until they have one, and the exponent counts the shift.
fn of_narrow(bits: u64) -> f64
    requires { (0 < bits) × (bits < 0x10000000000000) }
    ensures { result ≡ ln_narrow bits }
{
    let shift = u64::leading_zeros(bits) - 11;
    of_wide(bits << shift, 1023.0 + f64::from(shift))
}

fn of_wide(bits: u64, bias: f64) -> f64
    requires { bits < 0x7FF0000000000000 }
    ensures { result ≡ ln_wide bits bias }
{
    // half a step more, so that a cut finds the nearest piece; from 2 - 1/256 on that is the first piece of the next power of two
    let moved = bits + 0x100000000000;
    let field = moved / 0x10000000000000;
    let piece = moved / 0x200000000000 % 128;
    let mantissa = f64::from_bits(bits + 0x3FF0000000000000 - field * 0x10000000000000);
    let middle = f64::from_bits(0x3FF0000000000000 + piece * 0x200000000000);
    let exponent = (field as f64) - bias;
    let row = row_of(piece);
    let r = row.excess + (mantissa - middle) * row.reciprocal;
    let whole = exponent * LN2_HIGH + row.high;
    let sum = whole + r;
    let lost = (whole - sum) + r;
    let s = r * r;
    let first = -0.5000000000000001 + r * 0.33333333333333415;
    let second = -0.24999999992316846 + r * 0.19999999984739103;
    let third = -0.16667294993901074 + r * 0.14286470779586052;
    let tail = s * (first + s * (second + s * third));
    sum + ((lost + (exponent * LN2_LOW + row.low)) + tail)
}
