// K in the right half plane for consecutive orders: the seeds at the order's fraction, the climb to the first order wanted, and the fill.
// From src/amos/right_half_plane.rs, k_right_half_plane (ZBKNU); the words are those of docs/SCOPE.md, K.
#![tactic(auto)]

pub mod admitted;
pub mod by_miller;
pub mod by_temme;
pub mod ground;
pub mod kernel;
pub mod lead;
pub mod reach;
pub mod recover;
pub mod seeds;
