// The circular functions of f64: sin, cos, both together, sin(πx) and cos(πx), each equal to its definition in specs/.
// An angle is brought to a pair hi + lo of at most about π/4 and a number of quarter turns, and the classic kernels do the rest.
#![tactic(auto)]

pub mod cos;
pub mod cos_pi;
pub mod kernel;
pub mod reduce;
pub mod remainder;
pub mod sin;
pub mod sin_cos;
pub mod sin_pi;
mod split;
