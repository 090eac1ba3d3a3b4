// What Algorithm 644 asks of its machine, for f64: associated constants of one type, cited by every kernel.
// Each has its definition, by its bits, in specs/Constants.antt; `constants` shows that they agree.
ghost use Rattle.std.specs.Prelude.{◌≡◌};
ghost use Rattle.machine.specs.Constants.{machine_constants, not_a_number};

#[derive(Clone, Copy)]
pub struct Machine {
    pub tolerance: f64,
    pub inverse_tolerance: f64,
    pub exponent_limit: f64,
    pub approximation_limit: f64,
    pub underflow_limit: f64,
    pub absolute_approximation_limit: f64,
    pub gamma_ln_minimum: f64,
}

impl Machine {
    // 2^-52, TOL
    pub const TOLERANCE: f64 = 2.220446049250313e-16;
    // 2^52, the inverse of TOL
    pub const INVERSE_TOLERANCE: f64 = 4503599627370496.0;
    // ELIM: e to this power comes within a factor 1,000 of the ends of the range
    pub const EXPONENT_LIMIT: f64 = 700.9217936944459;
    // ALIM: above it values are kept on scale
    pub const APPROXIMATION_LIMIT: f64 = 664.8716455337102;
    // ARM: 1000 * 2^-1022
    pub const UNDERFLOW_LIMIT: f64 = 2.2250738585072014e-305;
    // ASCLE: A = 1000 * 2^-970
    pub const ABSOLUTE_APPROXIMATION_LIMIT: f64 = 1.0020841800044864e-289;
    // log-gamma shifts its argument up to here
    pub const GAMMA_LN_MINIMUM: f64 = 7.0;
}

// The constants as one value: what they are is a promise, and an edit of a digit is refused.
pub fn constants() -> Machine
    ensures { result ≡ machine_constants }
{
    Machine {
        tolerance: Machine::TOLERANCE,
        inverse_tolerance: Machine::INVERSE_TOLERANCE,
        exponent_limit: Machine::EXPONENT_LIMIT,
        approximation_limit: Machine::APPROXIMATION_LIMIT,
        underflow_limit: Machine::UNDERFLOW_LIMIT,
        absolute_approximation_limit: Machine::ABSOLUTE_APPROXIMATION_LIMIT,
        gamma_ln_minimum: Machine::GAMMA_LN_MINIMUM,
    }
}

// The one not-a-number that is ever stored. The compiler folds the quotient to the bits 7FF8000000000000, which the C boundary's
// tests look at: a constant of the language cannot hold a not-a-number.
pub fn not_a_number() -> f64
    ensures { result ≡ not_a_number }
{
    0.0 / 0.0
}
