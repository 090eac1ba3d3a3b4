// Lines of hexadecimal: an asking frame and an answer line, each read by its layout and written. docs/SCOPE.md, The frame program, has the
// format. Promised: of either line reading and writing are inverse to each other (proofs/AskingInverse.antt, proofs/AnswerInverse.antt).
// No kernel stands beneath this crate: what answers a frame is crate answering.
#![tactic(auto)]

pub mod asking;
pub mod digits;
pub mod layout;
pub mod reading;
pub mod writing;
