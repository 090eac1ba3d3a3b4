// K's two seeds K(fraction) and K(fraction + 1) for |z| to 2, by Temme's power series, after src/amos/right_half_plane.rs (ZBKNU).
// What a call works out once, |z| and ln(2/z) among it, comes in as an argument.
#![tactic(auto)]

pub mod difference;
pub mod gammas;
pub mod seeds;
pub mod shares;
pub mod sum;
