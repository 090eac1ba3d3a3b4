// What is left of a value from 65536 on when a smaller one is taken off as often as it fits: Rust's `%`, digit by digit on whole numbers. The machine's
// own `%` of f64 is a call of the C library, which the compiled program asks for at a version that not every system has.
ghost use Rattle.std.specs.Prelude.{◌≡◌, ◌*◌, ◌/◌, ◌%◌, ◌^◌, ◌≤◌, ◌<◌, T};
ghost use Rattle.std.specs.Float.{binary64};
ghost use Rattle.std.specs.Float.Ieee.{of_bits, to_bits, rem, le};

use machine::bits::{of_pattern, pattern};
use machine::constants::not_a_number;

// 2^52, above which a pattern has its exponent's field, and below which its digits
const FIELD: u64 = 0x10000000000000;

// what n leaves of m * 2^shift, a doubling at a time
fn doubled_rest(m: u64, shift: u64, n: u64) -> u64
    requires { (0 < n) × (n ≤ 2 ^ 53) }
    ensures { result ≡ (m * 2 ^ shift) % n }
{
    let mut r = m % n;
    for _ in 0..shift {
        r = 2 * r % n;
    }
    r
}

// y's exponent's field lies between 53 and that of 65536
pub fn remainder(a: f64, y: f64) -> f64
    requires { T (le (of_bits binary64 0x40F0000000000000) a)
        × (53 ≤ to_bits binary64 y / 2 ^ 52) × (to_bits binary64 y / 2 ^ 52 ≤ 1039) }
    ensures { result ≡ rem binary64 a y }
{
    let bits = pattern(a);
    if bits >= 0x7FF0000000000000 {
        return not_a_number();
    }
    let by = pattern(y);
    let field = by / FIELD;
    let shift = bits / FIELD - field;
    let r = doubled_rest(FIELD + bits % FIELD, shift, FIELD + by % FIELD);
    let unit = of_pattern((field - 52) * FIELD);
    r as f64 * unit
}
