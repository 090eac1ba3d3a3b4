// What any lent slice of cells needs, whatever is in it: one value into every cell, and whether all from an index on are finite.
#![tactic(auto)]

pub mod all_finite;
pub mod fill;
