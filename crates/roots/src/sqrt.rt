// The square root of any f64: the nearest f64, whose proof compares integer squares. A root of not-a-number or of a negative number is
// not-a-number. Own design: the root's 53 digits one by one, as at school, by shifts, comparisons and differences of whole numbers alone: no
// product, no quotient, and of the f64 nothing but its bits. Correctly rounded.
ghost use Rattle.std.specs.Prelude.{◌≡◌, cond, ◌+◌, ◌*◌, ◌^◌, ◌≤◌, ◌<◌, ltb};
ghost use Rattle.std.specs.Float.{binary64};
ghost use Rattle.std.specs.Float.Ieee.{of_bits};
ghost use Rattle.roots.specs.Seed.{folded};
ghost use Rattle.roots.specs.Sqrt.{sqrt_of, nearest_root, scaled};

use machine::bits::pattern;
use machine::constants::not_a_number;

fn chosen(a: u64, b: u64, below: u64, other: u64) -> u64
    ensures { result ≡ cond (ltb a b) below other }
{
    if a < b { below } else { other }
}

// The whole number nearest to the root of n * 2^52. A unit is what the last digit found is worth, the next being worth half of it. With q the
// root so far and e the unit, `twice` is 2q and `left` is 2(n * 2^52 - q * q) / e: what is left of the number less the square so far. A digit
// of worth d = e / 2 takes off (q + d)(q + d) - q * q = (2q + d)d, hence the trial 2q + d. The first digit is a 1.
// The unit is also the count of the turns: `for _ in 0..52` would keep a second one beside it.
// Nothing is a branch, which would be guessed wrong every other time, and what a digit takes off is chosen while `left` is doubled.
fn nearest(n: u64) -> u64
    requires { (2 ^ 52 ≤ n) × (n < 2 ^ 54) }
    ensures { result ≡ nearest_root 53 (n * 2 ^ 52) }
{
    let mut left = (n - 0x0010000000000000) << 1;
    let mut twice: u64 = 0x0020000000000000;
    let mut unit: u64 = 0x0010000000000000;
    while unit > 1 {
        unit = unit >> 1;
        let trial = twice + unit;
        let off = chosen(left, trial, 0, trial + trial);
        twice = chosen(left, trial, twice, trial + unit);
        left = left + left - off;
    }
    (twice >> 1) + chosen(twice, left, 1, 0)
}

// The 53 digits of the root of a normal number with the pattern u.
fn digits(u: u64) -> u64
    requires { u < 2 ^ 63 }
    ensures { result ≡ nearest_root 53 (scaled (folded u) * 2 ^ 52) }
{
    let w = ((u + 0x0010000000000000) << 11) >> 11;
    let n = if w < 0x0010000000000000 {
        w + 0x0010000000000000
    } else {
        w << 1
    };
    nearest(n)
}

// A subnormal number is first brought to full width, by an even power of two: the field 1 or 2 says which.
fn subnormal(u: u64) -> f64
    requires { (0 < u) × (u < 2 ^ 52) }
    ensures { result ≡ sqrt_of (of_bits binary64 u) }
{
    let s = u64::from(u.leading_zeros()) - 11;
    let v = (u << s) + ((s << 63) >> 11);
    f64::from_bits(digits(v) + ((511 - ((s + 1) >> 1)) << 52))
}

pub fn sqrt(x: f64) -> f64
    ensures { result ≡ sqrt_of x }
{
    let u = pattern(x);
    if u < 0x7FF0000000000000 {
        if u >= 0x0010000000000000 {
            return f64::from_bits(digits(u) + ((((u >> 52) + 1021) >> 1) << 52));
        }
        if u == 0 {
            return x;
        }
        return subnormal(u);
    }
    if u == 0x7FF0000000000000 {
        return x;
    }
    if u == 0x8000000000000000 {
        return x;
    }
    not_a_number()
}
