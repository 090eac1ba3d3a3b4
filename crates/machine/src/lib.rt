// The number type's home: the constants of Algorithm 644 for f64, the fixed not-a-number, finiteness, magnitudes, the bits of any f64, a value in two parts.
// From src/amos/machine/mod.rs (ARM, ASCLE, TOL, ELIM, ALIM and the bound of DGAMLN); the values are docs/SCOPE.md's.
#![tactic(auto)]

pub mod bits;
pub mod constants;
pub mod finite;
pub mod magnitude;
pub mod pair;
