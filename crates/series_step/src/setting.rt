// What the orders of one visit share, worked out once: 2/z, ln(z/2), the square of z/2 and that of its modulus.
// From src/amos/power_series.rs, i_power_series (ZSERI, before 20). Promised: setting_of of specs/Setting.antt. Turned, the square has
// the opposite sign and the recurrence subtracts: the same series is then that of J, DLMF 10.2.2.
ghost use Rattle.std.specs.Prelude.{◌≡◌};
ghost use Rattle.series_step.specs.Setting.{turned_of, square_of, setting_of};

use complex::number::Complex;
use complex::power::square;

#[derive(Clone, Copy)]
pub struct Setting {
    pub order: f64,
    pub re: f64,
    pub scaled: bool,
    pub turned: bool,
    pub half_z_sq: Complex,
    pub abs_half_z_sq: f64,
    pub two_over_z: Complex,
    pub ln_half_z: Complex,
}

// the root of the underflow limit: the square of a smaller argument underflows
const SQUARE_LIMIT: f64 = 4.7170688552396617e-153;

// Both ways are there though I is not turned: visit-sums-end, answered-sums-end and series-fits (docs/TRACE.md) are stated for either sign of
// (z/2)², by the parameter `turned` of setting_of and power_series_of.
pub fn turn(turned: bool, w: Complex) -> Complex
    ensures { result ≡ turned_of turned w }
{
    if turned {
        return -w;
    }
    w
}

pub fn square_of(modulus: f64, half: Complex) -> Complex
    ensures { result ≡ square_of modulus half }
{
    if modulus > SQUARE_LIMIT {
        return square(half);
    }
    Complex::ZERO
}

// The parameters are those of setting_of, in its order: the theorems that docs/TRACE.md quotes (visit-sums-end, answered-sums-end) name it with
// each of the five apart. So in `alone` and `power_series` of power_series.
pub fn prepare(scaled: bool, turned: bool, order: f64, z: Complex, modulus: f64) -> Setting
    ensures { result ≡ setting_of scaled turned order z modulus }
{
    let half = z * 0.5;
    let half_modulus = modulus * 0.5;
    Setting {
        order,
        re: z.re,
        scaled,
        turned,
        half_z_sq: turn(turned, square_of(modulus, half)),
        abs_half_z_sq: half_modulus * half_modulus,
        two_over_z: z.two_over_with(modulus),
        ln_half_z: half.ln(),
    }
}
