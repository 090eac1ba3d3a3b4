// The power series over n orders, DLMF 10.25.2: the small arguments apart, the downward visit otherwise. From src/amos/power_series.rs,
// i_power_series (ZSERI). Promised: power_series_of of specs/Series.antt, record and cells. It asks what refusals 1 and 5 leave: an even
// number of cells, 2 to 1024 of them.
ghost use Rattle.std.specs.Prelude.{◌≡◌, true, false, ◌/◌, ◌%◌, ◌≤◌, ◌<◌, length};
ghost use Rattle.std.specs.Float.Ieee.{eq};
ghost use Rattle.machine.specs.Small.{nothing};
ghost use Rattle.power_series.specs.Series.{power_series_of};

use crate::alone::alone;
use crate::entries::Entries;
use crate::pair::downward;
use crate::tiny::tiny;
use crate::visit::Visit;
use complex::number::Complex;
use machine::constants::Machine;
use series_step::setting::prepare;

// order 0 alone, unscaled
fn is_alone(scaled: bool, order: f64, n: usize) -> bool
    ensures { result ≡ true → (scaled ≡ false) × (eq order nothing ≡ true) × (n ≡ 1) }
{
    if scaled {
        return false;
    }
    if n == 1 {
        return order == 0.0;
    }
    false
}

// The clause is what Entries::of asks: here the lent slice becomes Entries, which hold it for all that is below. With `out: &mut Entries` it would only
// stand at the caller, in bessel/src/series.rt. The parameters are those of power_series_of of specs/Series.antt, in its order, in which the theorem
// series-fits (docs/TRACE.md) names them: so scaled and turned are two, and order, z and modulus stand apart.
pub fn power_series(
    scaled: bool,
    turned: bool,
    order: f64,
    z: Complex,
    modulus: f64,
    out: &mut [f64],
) -> Visit
    requires { (0 < length out.old) × (length out.old % 2 ≡ 0) × (length out.old ≤ 1024) }
    ensures { (result ≡ (power_series_of scaled turned order z modulus (length out.old / 2)).visit)
        × (out.new ≡ (power_series_of scaled turned order z modulus (length out.old / 2)).cells) }
{
    let mut entries = Entries::of(out);
    if modulus < Machine::UNDERFLOW_LIMIT {
        return tiny(order, modulus, &mut entries);
    }
    if is_alone(scaled, order, entries.len()) {
        return alone(turned, order, z, modulus, &mut entries);
    }
    downward(prepare(scaled, turned, order, z, modulus), &mut entries)
}
