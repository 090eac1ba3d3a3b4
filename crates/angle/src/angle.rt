// The angle of the point (x, y), atan2(y, x): the arc of shorter side / longer side from a table at 64ths and a series, then turned
// into its quadrant. Own design, after the table method; DLMF 4.24.3 for the series, 4.24.15 for the step from a tabled arc.
// Promised: the angle is the definition of specs/Angle.antt at every pair. Measured: 0.54 units in the last place.
ghost use Rattle.std.specs.Prelude.{◌≡◌, ◌&&◌, T};
ghost use Rattle.std.specs.Float.Ieee.{le};
ghost use Rattle.machine.specs.Small.{nothing, one};
ghost use Rattle.angle.specs.Angle.{larger_of, smaller_of, sides_of, lowered_of, raised_of, scaled_of};
ghost use Rattle.angle.specs.Angle.{step_of, tangent_of, series_of, joined_of, tabled_arc_of, arc_of, turned_of, away_of, upper_of, angle_of};
ghost use Rattle.angle.specs.shapes.Range.{Ranged};

use angle_tables::tables::tabled;
use machine::bits::leading_digits;
use machine::constants;
use machine::magnitude::magnitude;
use machine::pair::Pair;

// atan v = v + A3 v^3 + A5 v^5 + A7 v^7, fitted to |v| <= 1/128
const A3: f64 = -0.33333333333333254;

const A5: f64 = 0.19999999976440494;

const A7: f64 = -0.1428469035713278;

// 2^46, whose unit in the last place is 1/64
const GRID: f64 = 70368744177664.0;

// The point's magnitudes by size: the angle between the longer side and the point's radius is at most π / 4.
#[derive(Clone, Copy)]
pub struct Triangle {
    pub long: f64,
    pub short: f64,
}

// A tangent, and the same as leading digits and the rest, which are no `Pair`: tangent_of and joined_of of specs/Angle.antt have `high` and `low`.
#[derive(Clone, Copy)]
pub struct Tangent {
    pub value: f64,
    pub high: f64,
    pub low: f64,
}

// A quotient's nearest 64th: its index in the tables and its value.
#[derive(Clone, Copy)]
pub struct Step {
    pub index: usize,
    pub value: f64,
}

// Here and in `smaller`: `y.max(x)` and `y.min(x)` would ask besides whether one is no number, and promise less of two that are equal.
fn larger(y: f64, x: f64) -> f64
    ensures { result ≡ larger_of y x }
{
    if y > x { y } else { x }
}

fn smaller(y: f64, x: f64) -> f64
    ensures { result ≡ smaller_of y x }
{
    if y < x { y } else { x }
}

// Two tests of their own, so that each side is a maximum or a minimum of the machine and no branch.
fn sides(y: f64, x: f64) -> Triangle
    ensures { result ≡ sides_of y x }
{
    Triangle {
        long: larger(y, x),
        short: smaller(y, x),
    }
}

// Far up, times 2^-100: an infinity is as good as any number beside a finite one, and two are alike.
fn lowered(s: Triangle) -> Triangle
    ensures { result ≡ lowered_of s }
{
    if s.long == 1.0 / 0.0 {
        if s.short == 1.0 / 0.0 {
            return Triangle {
                long: 1.0,
                short: 1.0,
            };
        }
        return Triangle {
            long: 1.0,
            short: 0.0,
        };
    }
    Triangle {
        long: s.long * 7.888609052210118e-31,
        short: s.short * 7.888609052210118e-31,
    }
}

// Far down, times 2^200: the quotient of two zeros is taken as 0.
fn raised(s: Triangle) -> Triangle
    ensures { result ≡ raised_of s }
{
    if s.long == 0.0 {
        return Triangle {
            long: 1.0,
            short: 0.0,
        };
    }
    Triangle {
        long: s.long * 1.6069380442589903e60,
        short: s.short * 1.6069380442589903e60,
    }
}

// Into a range where no step over- or underflows: above 2^1000 and below 2^-800 one would.
fn scaled(s: Triangle) -> Triangle
    ensures { result ≡ scaled_of s }
{
    if s.long > 1.0715086071862673e301 {
        return lowered(s);
    }
    if s.long < 1.499696813895631e-241 {
        return raised(s);
    }
    s
}

// `Ranged s` stands here, in `tangent_left`, `tabled_arc` and `arc`, and is no invariant: step_of, tangent_of, tabled_arc_of and arc_of of
// specs/Angle.antt are of a plain `Triangle`, as `sides` makes it out of range too; in a type of its own their `s.long` would be `s.sides.long`.
fn nearest_step(s: Triangle) -> Step
    requires { Ranged s }
    ensures { result ≡ step_of s }
{
    let t = s.short / s.long + GRID;
    let index = (f64::to_bits(t) - 0x42D0000000000000) as usize;
    Step {
        index,
        value: t - GRID,
    }
}

// The tangent of the angle between the point's radius and the step's, (b - t a) / (a + t b), as leading digits and the rest.
fn tangent_left(s: Triangle, t: f64) -> Tangent
    requires ranged { Ranged s }
    requires t { T (le nothing t && le t one) }
    ensures { result ≡ tangent_of s t }
{
    let a = s.long;
    let b = s.short;
    let a_high = leading_digits(a);
    let above = b - t * a_high;
    let below = t * (a - a_high);
    let n = above - below;
    let n_low = (above - n) - below;
    let product = t * b;
    let d = a + product;
    let d_low = (a - d) + product;
    let inverse = 1.0 / d;
    let v = n * inverse;
    let high = leading_digits(v);
    let d_high = leading_digits(d);
    let left = (n - high * d_high) - high * (d - d_high);
    let rest = left + (n_low - high * d_low);
    Tangent {
        value: v,
        high,
        low: rest * inverse,
    }
}

// atan(v) - v for |v| up to 1/128.
fn series(v: f64) -> f64
    ensures { result ≡ series_of v }
{
    let z = v * v;
    (v * z) * (A3 + z * (A5 + z * A7))
}

// A tabled angle and the arc of the tangent left, added so that nothing is lost.
fn joined(base: Pair, rest: Tangent) -> Pair
    ensures { result ≡ joined_of base rest }
{
    let high = base.hi + rest.high;
    let carried = (base.hi - high) + rest.high;
    Pair {
        hi: high,
        lo: carried + ((base.lo + rest.low) + series(rest.value)),
    }
}

fn tabled_arc(s: Triangle) -> Pair
    requires { Ranged s }
    ensures { result ≡ tabled_arc_of s }
{
    let step = nearest_step(s);
    joined(tabled(step.index), tangent_left(s, step.value))
}

// The angle between the longer side and the point's radius. Below 2^-28 it is its tangent, to the last digit.
fn arc(s: Triangle) -> Pair
    requires { Ranged s }
    ensures { result ≡ arc_of s }
{
    if s.short <= s.long * 3.725290298461914e-9 {
        return Pair {
            hi: s.short / s.long,
            lo: 0.0,
        };
    }
    tabled_arc(s)
}

// A constant in two parts plus an angle in two parts.
fn away(from: Pair, by: Pair) -> f64
    ensures { result ≡ away_of from by }
{
    let s = from.hi + by.hi;
    let carried = (from.hi - s) + by.hi;
    s + (carried + (from.lo + by.lo))
}

// Into the upper half plane's quadrants: θ, π/2 - θ, π/2 + θ, π - θ. Steep: y is the longer side. Left: x has a minus sign.
fn turned(arc: Pair, steep: bool, left: bool) -> f64
    ensures { result ≡ turned_of arc steep left }
{
    let back = Pair {
        hi: -arc.hi,
        lo: -arc.lo,
    };
    if steep {
        let quarter = Pair {
            hi: 1.5707963267948966,
            lo: 6.123233995736766e-17,
        };
        if left {
            return away(quarter, arc);
        }
        return away(quarter, back);
    }
    if left {
        let half = Pair {
            hi: 3.141592653589793,
            lo: 1.2246467991473532e-16,
        };
        return away(half, back);
    }
    arc.hi + arc.lo
}

// The angle of a point above the axis, by the magnitudes of its parts and the side that it lies on.
fn upper(y: f64, x: f64, left: bool) -> f64
    requires { T (le nothing y && le nothing x) }
    ensures { result ≡ upper_of y x left }
{
    turned(arc(scaled(sides(y, x))), y > x, left)
}

pub fn angle(y: f64, x: f64) -> f64
    ensures { result ≡ angle_of y x }
{
    if y != y {
        return constants::not_a_number();
    }
    if x != x {
        return constants::not_a_number();
    }
    let r = upper(magnitude(y), magnitude(x), x.is_sign_negative());
    if y.is_sign_negative() {
        return -r;
    }
    r
}
