// The frames of an even sweep, written: from a kind, a scaling, an order, a count, a first and a last pair of parts and a number of steps.
// docs/SCOPE.md, The sweep, has the rules. Crate frame writes and reads the lines; no kernel stands beneath this crate.
#![tactic(auto)]

pub mod checks;
pub mod line;
pub mod points;
pub mod request;
pub mod sweep;
