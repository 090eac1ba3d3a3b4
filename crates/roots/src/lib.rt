// Square roots: sqrt is the nearest f64, digit by digit, proved by comparing integer squares; hypot has a root of its own, from a seed.
#![tactic(auto)]

pub mod hypot;
pub mod seed;
pub mod sqrt;
