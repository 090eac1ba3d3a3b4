#![tactic(auto)]

// Facts about floats, lists and loops that know nothing of Bessel functions: definitions in specs/, theorems in proofs/.
// This crate has no function.
