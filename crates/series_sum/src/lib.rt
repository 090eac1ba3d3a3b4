// The I series at one order without its leading factor: the sum by itself, and two of them side by side.
// After src/amos/power_series.rs, single_n_iteration (the loop 60 of ZSERI), and DLMF 10.25.2.
#![tactic(auto)]

pub mod sum;
pub mod sums;
