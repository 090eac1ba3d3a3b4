// The angle of a point of the plane: atan2 for f64.
#![tactic(auto)]

pub mod angle;
