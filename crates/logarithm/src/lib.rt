// The natural logarithm.
#![tactic(auto)]

pub mod ln;
