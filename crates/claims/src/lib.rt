#![tactic(auto)]

// What the project claims, gathered for a reader to begin with: proofs/Claims.antt has every statement and, beneath, the theorem that shows it;
// proofs/Whole.antt the theorem of all of them.
// This crate has no function.
