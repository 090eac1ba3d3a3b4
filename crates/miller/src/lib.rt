// K's seeds by Miller's method, for |z| above 2: how many backward steps to begin with, the steps, and the two seeds that they give.
// From src/amos/right_half_plane.rs, determine_miller_starting_k and compute_large_z_miller_seeds (ZBKNU).
#![tactic(auto)]

mod amount;
pub mod backward;
pub mod point;
pub mod search;
pub mod seeds;
mod trials;
