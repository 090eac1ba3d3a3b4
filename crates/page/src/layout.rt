// Where the parts of a page stand, cell by cell. The definitions have the same numbers in specs/Layout.antt, and programs in other languages the
// same layout: it does not change.

// how many numbers have a cell, each at its own place: lines read, by their number; 0 is answered, any other the refusal's
pub const NUMBERS: usize = 32;

// behind these a cell in reserve, which no line adds to; then answered lines, by their longest sum
pub const LONGEST_AT: usize = 33;

// how many of these there are, and the longest sum of all
pub const SUMS: usize = 20;

pub const LONGEST: u32 = 19;

// totals over the answered lines
pub const RUNGS_AT: usize = 53;

pub const BACKWARD_AT: usize = 54;

pub const ZEROS_AT: usize = 55;

// all lines, and those that are unreadable
pub const LINES_AT: usize = 56;

pub const UNREADABLE_AT: usize = 57;

// how many lines a page holds at most
pub const MOST_LINES: u64 = 4294967295;
