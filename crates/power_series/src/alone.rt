// Order 0 by itself, unscaled: its leading factor is 1, whatever ln(z/2) is, so that the sum is the entry and neither the logarithm nor the
// exponential is worked out. Promised: the visit of one order, as specs/Visit.antt has it. Where the sum has a zero part, or is not finite,
// the visit itself is taken.
ghost use Rattle.std.specs.Prelude.{◌≡◌, true, false};
ghost use Rattle.std.specs.Float.Ieee.{eq};
ghost use Rattle.machine.specs.Small.{nothing};
ghost use Rattle.series_step.specs.Setting.{setting_of};
ghost use Rattle.power_series.specs.Entries.{orders, Kept};
ghost use Rattle.power_series.specs.Visit.{visit_of};
ghost use Rattle.power_series.specs.shapes.Alone.{Something, Plain};

use crate::entries::Entries;
use crate::visit::{Visit, stepwise};
use complex::number::Complex;
use machine::finite::is_finite;
use series_step::setting::{prepare, square_of, turn};
use series_sum::sum::single_n_iteration;

fn is_something(x: f64) -> bool
    ensures { result ≡ true → Something x }
{
    if x == 0.0 {
        return false;
    }
    is_finite(x)
}

fn is_plain(modulus: f64, value: Complex) -> bool
    ensures { result ≡ true → Plain modulus value }
{
    if modulus <= 0.0 {
        return false;
    }
    if is_finite(modulus) {
        if is_something(value.re) {
            return is_something(value.im);
        }
    }
    false
}

// turned, order, z and modulus are the parameters of setting_of (specs/Setting.antt of series_step), which the clause names.
pub fn alone(turned: bool, order: f64, z: Complex, modulus: f64, out: &mut Entries) -> Visit
    requires { (eq order nothing ≡ true) × (orders out.old ≡ 1) }
    ensures kept { Kept out.old out.new }
    ensures visit { (result ≡ (visit_of (setting_of false turned order z modulus) 1).visit)
        × (out.new.cells.now ≡ (visit_of (setting_of false turned order z modulus) 1).cells) }
{
    let half = z * 0.5;
    let half_modulus = modulus * 0.5;
    let half_z_sq = turn(turned, square_of(modulus, half));
    let sum = single_n_iteration(order + 0.0, half_z_sq, half_modulus * half_modulus);
    let value = sum.value;
    if is_plain(half.modulus(), value) {
        out.put(0, value);
        return Visit {
            zeros: 0,
            stopped: false,
            place: 0,
            longest_sum: sum.terms,
            rungs: 0,
        };
    }
    stepwise(prepare(false, turned, order, z, modulus), out)
}
