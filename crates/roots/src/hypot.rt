// The length of the vector (x, y). With an infinite part it is infinite, else with a not-a-number not-a-number; beside a zero it is the
// other part's magnitude. Own design: the sum of the squares, scaled where it leaves [2^-800, 2^1000], and a root of its own from the seed
// and one Heron step, so that sqrt's method does not enter. Promised: equal to its definition; its square is off the
// sum of the squares by one part in 2^40 at most. Measured error 1.58 units in the last place.
ghost use Rattle.std.specs.Prelude.{◌≡◌, false, ◌&&◌, ◌+◌, ◌*◌, ◌/◌, ◌%◌, ◌^◌};
ghost use Rattle.std.specs.Float.{binary64};
ghost use Rattle.std.specs.Float.Ieee.{of_bits, le};
ghost use Rattle.roots.specs.Hypot.{root_at, sum_of_squares, least_sum, greatest_sum, scaled_hypot, hypot_of};

use crate::seed::twice_root;
use machine::bits::pattern;
use machine::constants::not_a_number;
use machine::magnitude::magnitude;

// What twice the root of a significand is multiplied with: half of the power of two whose square was taken off.
fn half_power(u: u64) -> f64
    ensures { result ≡ of_bits binary64 ((u % 2 ^ 63 / 2 ^ 52 + 1021) / 2 * 2 ^ 52) }
{
    f64::from_bits((u % 0x8000000000000000 / 0x0010000000000000 + 1021) / 2 * 0x0010000000000000)
}

// The root of the value of the pattern u.
fn root(u: u64) -> f64
    ensures { result ≡ root_at u }
{
    twice_root(u) * half_power(u)
}

fn scaled(a: f64, b: f64, x: f64, y: f64) -> f64
    ensures { result ≡ scaled_hypot a b x y }
{
    let p = x * a;
    let q = y * a;
    let s = pattern(p * p + q * q);
    root(s) * b
}

// Where the sum of the squares says nothing yet: a part is infinite or not a number, or the squares leave the range.
fn outside(x: f64, y: f64) -> f64
    requires { (le least_sum (sum_of_squares x y) && le (sum_of_squares x y) greatest_sum) ≡ false }
    ensures { result ≡ hypot_of x y }
{
    if x.is_infinite() || y.is_infinite() {
        return 1.0 / 0.0;
    }
    if x != x || y != y {
        return not_a_number();
    }
    if x == 0.0 {
        return magnitude(y);
    }
    if y == 0.0 {
        return magnitude(x);
    }
    if x * x + y * y >= 1.499696813895631e-241 {
        return scaled(2.409919865102884e-181, 4.149515568880993e180, x, y);
    }
    scaled(4.149515568880993e180, 2.409919865102884e-181, x, y)
}

pub fn hypot(x: f64, y: f64) -> f64
    ensures { result ≡ hypot_of x y }
{
    let s = x * x + y * y;
    if s >= 1.499696813895631e-241 {
        if s <= 1.0715086071862673e301 {
            if x == 0.0 {
                return magnitude(y);
            }
            if y == 0.0 {
                return magnitude(x);
            }
            let u = f64::to_bits(s);
            return root(u);
        }
        return outside(x, y);
    }
    outside(x, y)
}
