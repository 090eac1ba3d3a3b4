// One order of the downward visit: a seed by the sum, or a zero, until two orders are seeded; then the recurrence.
// From the loop of i_power_series in src/amos/power_series.rs (ZSERI). Promised: step_of of specs/Step.antt.
ghost use Rattle.std.specs.Prelude.{◌≡◌, ◌+◌, ◌<◌, ◌^◌};
ghost use Rattle.series_step.specs.Step.{step_of};

use crate::descent::Descent;
use crate::recurred::recurred;
use crate::seed::seed;
use crate::setting::Setting;

// The bounds on k and on the two counts are what `seed` and `recurred` ask, which say why no type holds them.
pub fn step(g: Setting, k: u32, s: Descent) -> Descent
    requires { (k + 1 < 2 ^ 32) × (s.counts.zeros + 1 < 2 ^ 32) × (s.counts.rungs + 1 < 2 ^ 32) }
    ensures { result ≡ step_of g k s }
{
    if s.seeded < 2 {
        return seed(g, g.order + f64::from(k), s);
    }
    recurred(g, k, s)
}
