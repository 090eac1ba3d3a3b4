// ln of the leading term (z/2)^v / Γ(v + 1) of an order, DLMF 10.25.2, less re z where the values are scaled. From i_power_series in
// src/amos/power_series.rs (ZSERI's AK1). Promised: leading_of of specs/Leading.antt.
ghost use Rattle.std.specs.Prelude.{◌≡◌};
ghost use Rattle.series_step.specs.Leading.{leading_of};

use crate::setting::Setting;
use complex::number::Complex;
use gamma_ln::gamma_ln::value;

pub fn leading(g: Setting, order: f64) -> Complex
    ensures { result ≡ leading_of g order }
{
    let below = value(order + 1.0);
    let lead = g.ln_half_z * order - below;
    if g.scaled {
        return lead - g.re;
    }
    lead
}
