// One order of the downward visit of the I series: what the orders share, a seed by the sum or a zero, and the recurrence.
// After src/amos/power_series.rs, i_power_series (ZSERI), DLMF 10.25.2 and 10.29.1.
#![tactic(auto)]

pub mod descent;
pub mod leading;
pub mod mark;
pub mod recurred;
pub mod seed;
pub mod setting;
pub mod step;
