// The rows that a logarithm is taken from; a crate of their own, since a table's proof is long.
#![tactic(auto)]

pub mod tables;
