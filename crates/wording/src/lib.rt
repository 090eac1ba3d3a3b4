// Text built in a lent buffer, or in a Text of fixed size, piece behind piece, so that one write tells it: bytes, and numbers in decimal. What a
// text says is not known here.
#![tactic(auto)]

pub mod pieces;
