// Log-gamma of a positive number: Stirling's series above 7, a shift up to there below it, and a table at whole arguments to 100
// (gamma_ln_tables). After src/amos/gamma_ln.rs (DGAMLN), DLMF 5.11.1 and 5.5.1.
#![tactic(auto)]

pub mod coefficients;
pub mod factors;
pub mod gamma_ln;
pub mod log_gamma;
pub mod series;
