// Whether a value kept without e^-z comes on scale: by the exponent that e^-z would leave it, then by the value itself, raised by 2^52.
// From src/amos/recurrence.rs, scale_k_recurrence (ZKSCL). Promised: the definitions of specs/Trial.antt; a trial gives the value where it is kept.
ghost use Rattle.std.specs.Prelude.{◌≡◌};
ghost use Rattle.recurrence.specs.Trial.{ln_magnitude, reaches_limit, raised_of, kept_trial, first_trial, later_trial};

use complex::lost::lost;
use complex::number::Complex;
use logarithm::ln::ln;
use machine::constants::Machine;

// half the logarithm of the squared modulus
pub fn ln_magnitude(w: Complex) -> f64
    ensures { result ≡ ln_magnitude w }
{
    0.5 * ln(w.norm_square())
}

// the exponent that e^-z leaves reaches the limit: a not-a-number does not
pub fn reaches_limit(z: Complex, l: f64) -> bool
    ensures { result ≡ reaches_limit z l }
{
    -z.re + l >= -Machine::EXPONENT_LIMIT
}

fn raised(z: Complex, w: Complex) -> Complex
    ensures { result ≡ raised_of z w }
{
    w.ln().minus(z).exp().over_real(Machine::TOLERANCE)
}

fn kept_trial(z: Complex, w: Complex) -> Option<Complex>
    ensures { result ≡ kept_trial z w }
{
    let value = raised(z, w);
    if lost(value) {
        return None;
    }
    Some(value)
}

// The first two values fail only where the exponent is below the limit: a not-a-number goes on to the trial.
pub fn first_trial(z: Complex, w: Complex) -> Option<Complex>
    ensures { result ≡ first_trial z w }
{
    if -z.re + ln_magnitude(w) < -Machine::EXPONENT_LIMIT {
        return None;
    }
    kept_trial(z, w)
}

// Later values have to reach the limit: a not-a-number fails.
pub fn later_trial(z: Complex, w: Complex, l: f64) -> Option<Complex>
    ensures { result ≡ later_trial z w l }
{
    if reaches_limit(z, l) {
        return kept_trial(z, w);
    }
    None
}
