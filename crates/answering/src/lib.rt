// What an asking frame asks, answered: line in, line out. docs/SCOPE.md, The frame program, has the format; crate frame reads and writes
// the lines, and crate bessel answers. Promised: answer_line gives answer_line_of of specs/Line.antt, its length and every byte, for every line.
#![tactic(auto)]

pub mod called;
pub mod line;
