// The climb over the orders, K(v+1) = (2v/z) K(v) + K(v-1): one rung, the three states of scale, the plain climb, the climb that
// fills a buffer, and the first orders on scale. From src/amos/recurrence.rs and limits.rs (ZKSCL and the climbs of ZBKNU).
#![tactic(auto)]

pub mod climb;
pub mod course;
pub mod fill;
pub mod first;
pub mod off_scale;
mod onward;
pub mod rung;
pub mod search;
pub mod state;
mod stretch;
pub mod trial;
