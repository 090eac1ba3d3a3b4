// Where the fields of a frame and of an answer line stand, counted in digits, two a byte. The definitions have the same numbers in
// specs/Layout.antt.

// ---- widths of fields
pub const BYTE_WIDTH: usize = 2;

pub const COUNT_WIDTH: usize = 4;

pub const FLOAT_WIDTH: usize = 16;

pub const PAIR_WIDTH: usize = 32;

// ---- an asking frame
pub const KIND_AT: usize = 0;

pub const SCALING_AT: usize = 2;

pub const COUNT_AT: usize = 4;

pub const ORDER_AT: usize = 8;

pub const RE_AT: usize = 24;

pub const IM_AT: usize = 40;

pub const ASKING_LENGTH: usize = 56;

// ---- an answer line: the record's fields and length, the length of 512 pairs, and both
pub const NUMBER_AT: usize = 0;

pub const ZEROS_AT: usize = 2;

pub const LONGEST_SUM_AT: usize = 6;

pub const RUNGS_AT: usize = 10;

pub const BACKWARD_AT: usize = 14;

pub const RECORD_LENGTH: usize = 18;

pub const LONGEST_PAIRS: usize = 16384;

pub const LONGEST_LINE: usize = 16402;
