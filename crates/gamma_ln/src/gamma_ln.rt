// ln of the gamma function above zero, with what it took: whole arguments to 100 from a table, others by Stirling's series, below 7 after a
// shift up. From src/amos/gamma_ln.rs (DGAMLN, which truncates where the shift rounds); DLMF 5.11.1 and 5.5.1. Promised for every f64:
// specs/GammaLn.antt.
// Measured on 26,000 arguments: within 13 parts in 2^52 of the value, or of 1 where the value is smaller.
ghost use Rattle.std.specs.Prelude.{◌≡◌, false, cond, T};
ghost use Rattle.std.specs.Float.Ieee.{le, lt};
ghost use Rattle.std.specs.Float.Ieee.Positive.{positive};
ghost use Rattle.machine.specs.Constants.{gamma_ln_minimum};
ghost use Rattle.machine.specs.Small.{nothing};
ghost use Rattle.rounding.specs.Round.{round_of};
ghost use Rattle.gamma_ln.specs.GammaLn.{is_tabulated, tabulated_of, stirling_of, shift_of, series_argument_of, summed_of, gamma_ln_of};

use crate::factors::factors;
use crate::series::series;
use gamma_ln_tables::tables::whole_value;
use logarithm::ln::ln;
use machine::constants::{Machine, not_a_number};
use rounding::round::round;

// The value, by how many factors the argument was shifted, and how many terms of the series were summed.
#[derive(Clone, Copy)]
pub struct Computed {
    pub value: f64,
    pub factors: u32,
    pub terms: u32,
}

#[inline(always)]
pub fn gamma_ln(x: f64) -> Computed
    ensures { result ≡ gamma_ln_of x }
{
    if x <= 0.0 {
        return Computed {
            value: not_a_number(),
            factors: 0,
            terms: 0,
        };
    }
    if is_tabulated(x) {
        return Computed {
            value: tabulated(x),
            factors: 0,
            terms: 0,
        };
    }
    summed(x)
}

// The value alone, which comes back in a register: for that the record is worked out in here.
pub fn value(x: f64) -> f64
    ensures { result ≡ (gamma_ln_of x).value }
{
    gamma_ln(x).value
}

// ln(2π)
const LN_2_PI: f64 = 1.8378770664093456;

fn stirling(z: f64) -> Computed
    ensures { result ≡ stirling_of z }
{
    let tail = series(z);
    let logarithm = ln(z);
    Computed {
        value: z * (logarithm - 1.0) + 0.5 * (LN_2_PI - logarithm) + tail.sum,
        factors: 0,
        terms: tail.count,
    }
}

// 2^52, from which on no f64 has a fraction: added to a number up to 101 and taken off, it leaves the nearest whole number, of two the even one.
const GRID: f64 = 4503599627370496.0;

// `is_tabulated`, `raised` and `summed` ask that x is not 0 or less, and take it as it is: is_tabulated, series_argument_of and summed_of of
// specs/GammaLn.antt are definitions over any f64. A type that holds the test would be opened in each of the three (`x.value`).
fn is_tabulated(x: f64) -> bool
    requires { le x nothing ≡ false }
    ensures { result ≡ is_tabulated x }
{
    let whole = x + GRID - GRID;
    x <= 100.1 && whole == x
}

fn tabulated(x: f64) -> f64
    requires { T (positive x) × T (is_tabulated x) }
    ensures { result ≡ tabulated_of x }
{
    whole_value(x as u32)
}

// The argument rounded, a half up: the even whole number, but for four arguments, 0.5, 2.5, 4.5 and 6.5. Those are left to `round`, so that the
// compiler makes a branch of the test, and not a selection that every shift waits for.
fn rounded(x: f64) -> f64
    requires { T (positive x) × T (lt x gamma_ln_minimum) }
    ensures { result ≡ round_of x }
{
    let whole = x + GRID - GRID;
    if x < whole + 0.5 {
        return whole;
    }
    round(x)
}

// Where the series is summed, and by how much the argument is raised to get there: to 7 or near it, from 7 on not at all. Rounded to the nearest
// whole number, and not truncated, the argument leaves 6.5 to 7.5 for the series. One test gives both, so that from 7 on nothing stands before it.
#[derive(Clone, Copy)]
pub struct Place {
    pub argument: f64,
    pub shift: f64,
}

fn raised(x: f64) -> Place
    requires { le x nothing ≡ false }
    ensures { (result.argument ≡ series_argument_of x) × (result.shift ≡ cond (lt x gamma_ln_minimum) (shift_of x) nothing) }
{
    if x < Machine::GAMMA_LN_MINIMUM {
        let shift = Machine::GAMMA_LN_MINIMUM - rounded(x);
        return Place {
            argument: x + shift,
            shift,
        };
    }
    Place {
        argument: x,
        shift: 0.0,
    }
}

// Shifted or not, the series is asked for in one place: it is then compiled into this function, and its record stays in registers.
fn summed(x: f64) -> Computed
    requires { le x nothing ≡ false }
    ensures { result ≡ summed_of x }
{
    let place = raised(x);
    let above = stirling(place.argument);
    let wanted = place.shift as u32;
    if wanted == 0 {
        return above;
    }
    let below = factors(x, wanted);
    Computed {
        value: above.value - ln(below.product),
        factors: below.count,
        terms: above.terms,
    }
}
