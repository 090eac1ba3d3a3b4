// Miller's backward steps: from 2^-52 at the start down to the index 1, with the sum that normalises them. In real arithmetic and in
// complex arithmetic. From src/amos/right_half_plane.rs, compute_large_z_miller_seeds. Promised: specs/Backward.antt; each step counts
// itself, so the count is the start.
ghost use Rattle.std.specs.Prelude.{◌≡◌, ◌+◌, ◌-◌, ◌≤◌, ◌<◌, ◌^◌};
ghost use Rattle.laws.specs.Iterate.{iterate};
ghost use Rattle.miller.specs.Backward.{real_steps, complex_next, complex_step, complex_steps};
ghost use Rattle.miller.specs.shapes.Steps.{step_of, first_of, steps_of};

use crate::amount::Amount;
use complex::number::Complex;
use machine::constants::Machine;

// The last two values, the sum so far, the index of the next step and how many were taken.
#[derive(Clone, Copy)]
pub struct Steps<T> {
    pub older: T,
    pub newer: T,
    pub sum: T,
    pub k: f64,
    pub steps: u32,
}

fn step<T: Amount>(z: T, distance: f64, s: Steps<T>) -> Steps<T>
    requires { s.steps + 1 < 2 ^ 32 }
    ensures { result ≡ step_of T.does z distance s }
{
    let k = s.k;
    let square = k * k;
    let share = 1.0 / (square - k + distance);
    let factor = z.plus_real(k).times_real(2.0 * k);
    let next = s
        .newer
        .product(factor)
        .minus(s.older.times_real(square + k))
        .times_real(share);
    Steps {
        older: s.newer,
        newer: next,
        sum: s.sum.plus(next),
        k: k - 1.0,
        steps: s.steps + 1,
    }
}

// `start as f64` and not `f64::from(start)`, here and in trials.rt and search.rt: the two are one cast, and the second leaves the goal `returns` open.
fn first<T: Amount>(start: u32) -> Steps<T>
    ensures { result ≡ first_of T.does start }
{
    Steps {
        older: T::from_real(0.0),
        newer: T::from_real(Machine::TOLERANCE),
        sum: T::from_real(Machine::TOLERANCE),
        k: start as f64,
        steps: 0,
    }
}

fn all_steps<T: Amount>(z: T, distance: f64, start: u32) -> Steps<T>
    ensures { result ≡ steps_of T.does z distance start }
{
    let mut s = first(start);
    for _ in 0..start {
        s = step(z, distance, s);
    }
    s
}

pub fn real_steps(x: f64, distance: f64, start: u32) -> Steps<f64>
    ensures { result ≡ real_steps x distance start }
{
    all_steps(x, distance, start)
}

// The argument and |1/4 - fraction²| go apart through the steps: so the definitions of specs/Backward.antt have them, and `Run { z, distance }` would be taken
// apart in each line.
fn real_part(z: Complex, distance: f64, s: Steps<Complex>) -> f64
    ensures { result ≡ (complex_next z distance s).re }
{
    let k = s.k;
    let older = s.older;
    let newer = s.newer;
    let square = k * k;
    let product = newer.re * ((z.re + k) * (2.0 * k)) - newer.im * (z.im * (2.0 * k));
    (product - older.re * (square + k)) * (1.0 / (square - k + distance))
}

fn with_real_part(z: Complex, distance: f64, s: Steps<Complex>, re: f64) -> Steps<Complex>
    requires { (s.steps + 1 < 2 ^ 32) × (re ≡ (complex_next z distance s).re) }
    ensures { result ≡ complex_step z distance s }
{
    let k = s.k;
    let older = s.older;
    let newer = s.newer;
    let sum = s.sum;
    let square = k * k;
    let product = newer.re * (z.im * (2.0 * k)) + newer.im * ((z.re + k) * (2.0 * k));
    let im = (product - older.im * (square + k)) * (1.0 / (square - k + distance));
    Steps {
        older: newer,
        newer: Complex { re, im },
        sum: Complex {
            re: sum.re + re,
            im: sum.im + im,
        },
        k: k - 1.0,
        steps: s.steps + 1,
    }
}

fn last_step(z: Complex, distance: f64, start: u32, s: Steps<Complex>) -> Steps<Complex>
    requires { (s.steps ≤ start) × (start ≤ s.steps + 1) }
    ensures { result ≡ iterate (start - s.steps) (complex_step z distance) s }
{
    if s.steps < start {
        return step(z, distance, s);
    }
    s
}

// Two steps a turn, so that no value is moved from one place to another. The tests between a real and an imaginary part keep the compiler
// from pairing the two, which would put shuffles between one step and the next; what they find is no number in the end, whichever way it is
// reached. The steps' own count bounds the loop: with `for _ in 0..start / 2` a turn of two steps takes 83 instructions on x86-64, where
// tools/objects/loops.py allows 41 a step. A turn of two calls of `step`, without the tests, has the shuffles: so real_part and with_real_part stand beside it.
pub fn complex_steps(z: Complex, distance: f64, start: u32) -> Steps<Complex>
    ensures { result ≡ complex_steps z distance start }
{
    let mut s = first(start);
    while start - s.steps > 1 {
        let re = real_part(z, distance, s);
        let sum = s.sum;
        let sum_re = sum.re + re;
        if sum_re != sum_re {
            return all_steps(z, distance, start);
        }
        let t = with_real_part(z, distance, s, re);
        let next_re = real_part(z, distance, t);
        let next_sum = t.sum;
        let next_sum_re = next_sum.re + next_re;
        if next_sum_re != next_sum_re {
            return all_steps(z, distance, start);
        }
        s = with_real_part(z, distance, t, next_re);
    }
    last_step(z, distance, start, s)
}
