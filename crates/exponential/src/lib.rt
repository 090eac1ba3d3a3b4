// The exponential function and the hyperbolic sine and cosine of every f64, each proved equal to its definition in specs/.
#![tactic(auto)]

mod by_magnitude;
pub mod cosh;
pub mod exp;
pub mod sinh;
