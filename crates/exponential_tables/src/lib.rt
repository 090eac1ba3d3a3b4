// The powers of e that exp is put together from, each in two parts; a crate of their own, since a table's proof is long.
#![tactic(auto)]

pub mod tables;
