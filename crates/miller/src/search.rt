// How many backward steps Miller's seeds begin with: to |z| = (2/3)·52 - 6 by a formula in |z| and the angle, above by trials, corrected by
// the angle.
// From src/amos/right_half_plane.rs, determine_miller_starting_k. Promised for every argument: specs/Search.antt; a start is at most 256.
ghost use Rattle.std.specs.Prelude.{◌≡◌};
ghost use Rattle.miller.specs.Search.{start_from, angle_correction, raw_start, by_recurrence, curve_of, formula_of, start_of};
ghost use Rattle.miller.specs.shapes.Correction.{correction_of};

use crate::point::{Order, Point, is_real};
use crate::trials::trial_index;
use circular::cos::cos;
use logarithm::ln::ln;
use machine::constants::Machine;
use roots::sqrt::sqrt;
use std::num::saturating_f64_to_u32;

// None where the value is no start: not finite, not above -1, or beyond 256 without its fraction.
fn start_from(raw: f64) -> Option<u32>
    ensures { result ≡ start_from raw }
{
    if raw > -1.0 && raw < 257.0 {
        return Some(saturating_f64_to_u32(raw));
    }
    None
}

// (2/3)·52 - 6
const THRESHOLD: f64 = 28.666666666666664;

// With the sign of the angle; ZBKNU has its magnitude here.
fn angle_correction(modulus: f64, angle: f64) -> f64
    ensures { result ≡ angle_correction modulus angle }
{
    1.909859317102744 * angle * sqrt(THRESHOLD / modulus)
}

// What the angle adds to the index that the trials find: nothing on the real path.
fn correction(point: Point) -> f64
    ensures { result ≡ correction_of point }
{
    if is_real(point.z) {
        return 0.0;
    }
    angle_correction(point.modulus, point.angle)
}

fn raw_start(point: Point, index: u32, added: f64) -> f64
    requires { added ≡ correction_of point }
    ensures { result ≡ raw_start point index }
{
    let raw = index as f64;
    if is_real(point.z) {
        return raw;
    }
    raw + added
}

// The correction does not depend on the trials: it stands before them, so that its root is taken while they run.
fn by_recurrence(point: Point, order: Order) -> Option<u32>
    ensures { result ≡ by_recurrence point order }
{
    let modulus = point.modulus;
    let test = order.rotation / (3.141592653589793 * modulus * Machine::TOLERANCE);
    if test <= 1.0 {
        return Some(1);
    }
    let added = correction(point);
    let index = trial_index(modulus, order.square, test)?;
    start_from(raw_start(point, index, added))
}

fn curve(point: Point, precision: f64) -> f64
    ensures { result ≡ curve_of point precision }
{
    let modulus = point.modulus;
    if is_real(point.z) {
        return precision + modulus / (1.0 + 0.008 * modulus);
    }
    let near = cos(3.0 * point.angle / (1.0 + modulus));
    let far = cos(14.7 * point.angle / (28.0 + modulus));
    (precision + modulus * near / (1.0 + 0.008 * modulus)) / far
}

fn formula(point: Point, rotation: f64) -> f64
    ensures { result ≡ formula_of point rotation }
{
    let precision = ln(rotation * 1.8976999933151775 / (Machine::TOLERANCE * sqrt(point.root)));
    let height = curve(point, precision);
    0.12125 * (height * height) / point.modulus + 1.5
}

// None where no trial passed, or what was found is no start.
pub fn search(point: Point, order: Order) -> Option<u32>
    ensures { result ≡ start_of point order }
{
    if point.modulus > THRESHOLD {
        return by_recurrence(point, order);
    }
    start_from(formula(point, order.rotation))
}
