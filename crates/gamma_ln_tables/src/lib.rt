// The numbers that log-gamma looks up: its values at whole arguments; a crate of their own, since a table's proof is long.
#![tactic(auto)]

pub mod tables;
