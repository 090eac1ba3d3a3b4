// The quadratics that a root's seed is taken from; a crate of their own, since a table's proof is long.
#![tactic(auto)]

pub mod tables;
