// The entry point: ln of the gamma function of a positive number, or the refusal 2 (not finite), 10 (0 or less) or 8 (the value is not finite),
// tested in this order. Promised for every f64: number and values of the case returned, outcome_of of specs/LogGamma.antt, are the defined
// ones. A refusal holds no value.
ghost use Rattle.std.specs.Prelude.{◌≡◌};
ghost use Rattle.call.specs.Checks.{verdict_of};
ghost use Rattle.gamma_ln.specs.LogGamma.{argument_checks, valued_of, outcome_of, outcome_at};

use crate::gamma_ln::value;
use call::checks::refused_if;
use machine::finite::is_finite;
use refusal::refusal::Refusal;

fn argument_checked(x: f64) -> Result<(), Refusal>
    ensures { result ≡ verdict_of (argument_checks x) }
{
    refused_if(!is_finite(x), Refusal::NotFinite)?;
    refused_if(x <= 0.0, Refusal::NotPositive)
}

fn valued(value: f64) -> Result<f64, Refusal>
    ensures { result ≡ valued_of value }
{
    if is_finite(value) {
        Ok(value)
    } else {
        Err(Refusal::Overflow)
    }
}

pub fn log_gamma(x: f64) -> Result<f64, Refusal>
    ensures { outcome_of result ≡ outcome_at x }
{
    argument_checked(x)?;
    valued(value(x))
}
