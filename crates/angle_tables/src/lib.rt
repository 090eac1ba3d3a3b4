// The arcs that an angle is taken from; a crate of their own, since a table's proof is long.
#![tactic(auto)]

pub mod tables;
