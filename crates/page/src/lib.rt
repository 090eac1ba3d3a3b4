// The morning count: answer lines read, a page of counts over a night of them, a line added and two pages joined. docs/SCOPE.md, The page, has
// the rules. Promised: what is added to a page is what the page of that line has, so that after any list of lines the page is the one that is
// defined from the list (proofs/PageFacts.antt). Nothing of a kernel stands beneath this crate.
#![tactic(auto)]

pub mod adding;
pub mod layout;
pub mod saying;
