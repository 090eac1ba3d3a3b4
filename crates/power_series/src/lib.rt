// The I series over consecutive orders: the downward visit, and the small arguments that need none. What one order does is in series_step,
// its sum in series_sum. After src/amos/power_series.rs (ZSERI) and DLMF 10.25.2.
#![tactic(auto)]

pub mod alone;
pub mod entries;
pub mod pair;
pub mod series;
pub mod tiny;
pub mod visit;
