// The entry points: which calls are admitted, every cell of the lent buffer, and the answer: its counts, or its refusal.
// docs/SCOPE.md, Domain and refusals, has the rules; the steps behind the checks are the kernels' crates.
#![tactic(auto)]

pub mod arguments;
pub mod checks;
pub mod i;
pub mod k;
pub mod outcome;
pub mod series;
