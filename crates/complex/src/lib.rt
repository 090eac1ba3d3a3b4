// Complex numbers of two f64 parts, by value: arithmetic, the functions that the kernels take of them, and the test for a lost value.
// Each operation rounds once, in the order of the Rust text's `num`; the words are those of docs/SCOPE.md, Arithmetic.
#![tactic(auto)]

pub mod functions;
pub mod lost;
pub mod number;
pub mod operators;
pub mod power;
