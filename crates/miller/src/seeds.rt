// The two seeds K(fraction) and K(fraction + 1) from Miller's backward steps, times a coefficient: the last value over the sum, and the
// ratio of the last two. From src/amos/right_half_plane.rs, compute_large_z_miller_seeds. Promised for every argument: specs/Seeds.antt;
// refusal 6 exactly where the search finds no start.
ghost use Rattle.std.specs.Prelude.{◌≡◌};
ghost use Rattle.miller.specs.Seeds.{real_seeds, complex_seeds, seeds_from, seeds_at};
ghost use Rattle.miller.specs.shapes.Ratio.{ratio_unless, product_unless};

use crate::amount::Amount;
use crate::backward::{Steps, complex_steps, real_steps};
use crate::point::{Order, Point, is_real};
use complex::number::Complex;
use machine::magnitude::magnitude;
use refusal::refusal::Refusal;

#[derive(Clone, Copy)]
pub struct Miller {
    pub first: Complex,
    pub second: Complex,
    pub backward: u32,
}

// What the first seed is multiplied with for the second; 0 where one value alone is asked for, and so is the second seed then: real_second and complex_second
// of specs/Seeds.antt have the 0, and an Option would be read `ratio.map_or(T::from_real(0.0), |r| r.product(first))`.
fn ratio<T: Amount>(alone: bool, z: T, fraction: f64, s: Steps<T>) -> T
    ensures { result ≡ ratio_unless T.does alone z fraction s }
{
    if alone {
        return T::from_real(0.0);
    }
    let length = s.newer.modulus();
    let ratio = s
        .older
        .over_real(length)
        .product(s.newer.conjugate().over_real(length));
    let shifted = ratio.opposite().plus_real(fraction).plus_real(0.5);
    shifted.quotient(z).plus_real(1.0)
}

// Where one value alone is asked for, the second seed is 0.
fn second<T: Amount>(alone: bool, ratio: T, first: T) -> T
    ensures { result ≡ product_unless T.does alone ratio first }
{
    if alone {
        return T::from_real(0.0);
    }
    ratio.product(first)
}

// Apart from the complex path: the three factors of the first seed are multiplied in another order there, newer.product(coefficient.product(sum)).
fn real_seeds(x: f64, order: Order, coefficient: f64, alone: bool, start: u32) -> Miller
    ensures { result ≡ real_seeds x order coefficient alone start }
{
    let s = real_steps(x, order.distance, start);
    let ratio = ratio(alone, x, order.fraction, s);
    let length = magnitude(s.sum);
    let first = s.newer / length * (s.sum / length) * coefficient;
    Miller {
        first: Complex { re: first, im: 0.0 },
        second: Complex {
            re: second(alone, ratio, first),
            im: 0.0,
        },
        backward: s.steps,
    }
}

// The ratio comes first: the second seed waits for it longer than for the first seed.
fn complex_seeds(z: Complex, order: Order, coefficient: Complex, alone: bool, start: u32) -> Miller
    ensures { result ≡ complex_seeds z order coefficient alone start }
{
    let s = complex_steps(z, order.distance, start);
    let ratio = ratio(alone, z, order.fraction, s);
    let length = s.sum.modulus();
    let turned = s.sum.conjugate().over_real(length);
    let first = s
        .newer
        .over_real(length)
        .product(coefficient.product(turned));
    Miller {
        first,
        second: second(alone, ratio, first),
        backward: s.steps,
    }
}

// The order, the coefficient and whether one value alone is asked for stand apart in seeds_from and seeds_at of specs/Seeds.antt, and so here.
fn seeds_from(point: Point, order: Order, coefficient: Complex, alone: bool, start: u32) -> Miller
    ensures { result ≡ seeds_from point order coefficient alone start }
{
    let z = point.z;
    if is_real(z) {
        return real_seeds(z.re, order, coefficient.re, alone, start);
    }
    complex_seeds(z, order, coefficient, alone, start)
}

// From the start that `search` finds for the point and the order. The coefficient does not wait for it: it is worked out between the two.
pub fn seeds_at(
    point: Point,
    order: Order,
    coefficient: Complex,
    alone: bool,
    found: Option<u32>,
) -> Result<Miller, Refusal>
    ensures { result ≡ seeds_at point order coefficient alone found }
{
    let start = found.ok_or(Refusal::Start)?;
    Ok(seeds_from(point, order, coefficient, alone, start))
}
