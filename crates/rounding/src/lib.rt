// Rounding to a whole number, a half away from zero.
#![tactic(auto)]

pub mod round;
