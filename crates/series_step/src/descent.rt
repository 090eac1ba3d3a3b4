// The state between two orders of the downward visit, and the counts that it carries. From the locals of i_power_series in
// src/amos/power_series.rs (ZSERI's S1, S2, CRSCR, IFLAG and NZ). Promised: start_descent of specs/Descent.antt.
// Near underflow the last two values are raised by 2^52, until an entry's modulus exceeds A.
ghost use Rattle.std.specs.Prelude.{◌≡◌};
ghost use Rattle.series_step.specs.Descent.{start_descent};

use complex::number::Complex;

// The orders set to zero, the terms of the longest sum, and the steps of the recurrence.
#[derive(Clone, Copy)]
pub struct Tally {
    pub zeros: u32,
    pub longest_sum: u32,
    pub rungs: u32,
}

// The state between two orders: the last two values, raised near underflow, the entry of the order above, by what factor a value becomes
// its entry, and how many orders are seeded. The types leave no byte of padding, which the compiler would carry through memory from order
// to order.
// The factor and the mark near_underflow are two fields, and no Option<f64>: a mark that is cleared leaves the factor as it was (cleared_if of
// specs/Recurred.antt). The seeded orders are a number, and no enum of three kinds: kept_of of specs/Seed.antt counts them.
#[derive(Clone, Copy)]
pub struct Descent {
    pub y_k_plus_2: Complex,
    pub y_k_plus_1: Complex,
    pub above: Complex,
    pub scale_factor: f64,
    pub counts: Tally,
    pub seeded: u16,
    pub near_underflow: bool,
    pub stopped: bool,
}

pub fn start() -> Descent
    ensures { result ≡ start_descent }
{
    Descent {
        y_k_plus_2: Complex::ZERO,
        y_k_plus_1: Complex::ZERO,
        above: Complex::ZERO,
        scale_factor: 1.0,
        counts: Tally {
            zeros: 0,
            longest_sum: 0,
            rungs: 0,
        },
        seeded: 0,
        near_underflow: false,
        stopped: false,
    }
}
