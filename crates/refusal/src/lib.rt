// Why a call gets no answer: the cases of docs/SCOPE.md's table, and their numbers in one place.
#![tactic(auto)]

pub mod refusal;
