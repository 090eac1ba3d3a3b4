// What every call has in common before any kernel: its kind, the limits of its arguments, the ordered checks, and the counts or the refusal that it returns.
// docs/SCOPE.md, Domain and refusals, has the rules. No kernel stands beneath this crate, so that whatever handles calls as lines or lists
// needs none either.
#![tactic(auto)]

pub mod answer;
pub mod checks;
pub mod kind;
pub mod limits;
