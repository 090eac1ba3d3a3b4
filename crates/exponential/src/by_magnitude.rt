// What sinh and cosh share, of an a with no minus sign: one way below 1, another by e^a in two parts up to 705, and half of e^a beyond.
ghost use Rattle.std.specs.Prelude.{◌≡◌, cond, Float};
ghost use Rattle.std.specs.Float.Ieee.{lt, le};
ghost use Rattle.machine.specs.Small.{one};
ghost use Rattle.machine.specs.declared.pair.Pair.{Pair};
ghost use Rattle.exponential.specs.Exp.{limit, exp_pair, half_exp_far};

use crate::exp::{exp_pair, half_exp_far};
use machine::pair::Pair;

pub fn by_magnitude<S: Fn(f64) -> f64, W: Fn(Pair) -> f64>(a: f64, small: S, wide: W) -> f64
    requires small { S.IsAlwaysCallable small }
    requires wide { W.IsAlwaysCallable wide }
    ensures { (s : Float → Float) → (w : Pair → Float) → ((y z : Float) → S.post small y z → z ≡ s y)
        → ((p : Pair) → (z : Float) → W.post wide p z → z ≡ w p)
        → result ≡ cond (lt a one) (s a) (cond (le a limit) (w (exp_pair a)) (half_exp_far a)) }
{
    if a < 1.0 {
        return small(a);
    }
    if a <= 705.0 {
        return wide(exp_pair(a));
    }
    half_exp_far(a)
}
