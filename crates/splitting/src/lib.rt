// An input of lines that comes in parts, cut anywhere. Of a long line the first bytes are held, as many as there is room for; whoever reads lines
// gives it room for one byte more than the longest that it takes. Whether a program that answers lines goes on, or how it ended; the reads that it
// is served by, to the input's end; and what it tells then. Nothing here knows what a line says.
#![tactic(auto)]

pub mod count;
pub mod cut;
pub mod serving;
pub mod state;
pub mod telling;
