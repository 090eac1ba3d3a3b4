// An answer line read by its layout alone: the record, how many pairs follow it, and the cells by their bits or as values.
// From docs/SCOPE.md, The frame program. Promised for every line: reading_of of specs/Reading.antt. Whether there is such a number,
// and whether a count is possible, is left to who reads.
ghost use Rattle.std.specs.Prelude.{◌≡◌, true, ◌+◌, ◌*◌, ◌≤◌, ◌<◌, length};
ghost use Rattle.frame.specs.Layout.{record_length, float_width};
ghost use Rattle.frame.specs.Digits.{are_digits};
ghost use Rattle.frame.specs.Reading.{signed_word, record_at, rest_inside, reading_of, cell_bits_of, cells_read};

use crate::digits::{Digits, are_digits};
use crate::layout::{
    BACKWARD_AT, BYTE_WIDTH, COUNT_WIDTH, FLOAT_WIDTH, LONGEST_PAIRS, LONGEST_SUM_AT, NUMBER_AT,
    PAIR_WIDTH, RECORD_LENGTH, RUNGS_AT, ZEROS_AT,
};
use machine::bits::of_pattern;

// What the line says, and how many pairs follow.
#[derive(Clone, Copy, Debug, PartialEq, Eq)]
pub struct Record {
    pub number: u32,
    pub zeros: i32,
    pub longest_sum: u32,
    pub rungs: u32,
    pub backward: u32,
    pub pairs: usize,
}

// A count of zeros in two bytes.
#[tactic(auto, using(std::proofs::lemmas::Bool::Decides::nat_tests), unfolding(crate::specs::Reading::signed_word))]
fn signed_word(word: u32) -> i32
    requires { word < 65536 }
    ensures { result ≡ signed_word word }
{
    i32::from((word as u16).cast_signed())
}

fn read_record(digits: &Digits) -> Record
    requires { record_length ≤ length digits.now.line.now }
    ensures { result ≡ record_at digits.now.line.now }
{
    Record {
        number: digits.short(NUMBER_AT, BYTE_WIDTH),
        zeros: signed_word(digits.short(ZEROS_AT, COUNT_WIDTH)),
        longest_sum: digits.short(LONGEST_SUM_AT, COUNT_WIDTH),
        rungs: digits.short(RUNGS_AT, COUNT_WIDTH),
        backward: digits.short(BACKWARD_AT, COUNT_WIDTH),
        pairs: (digits.line.len() - RECORD_LENGTH) / PAIR_WIDTH,
    }
}

// Whether so many digits may follow the number: behind 0 those of one to 512 pairs, behind any other none.
#[tactic(auto, using(std::proofs::lemmas::Bool::Decides::nat_tests), unfolding(crate::specs::Reading::rest_inside))]
fn rest_inside(number: u32, rest: usize) -> bool
    ensures { result ≡ rest_inside number rest }
{
    if number == 0 {
        0 < rest && rest <= LONGEST_PAIRS && rest % PAIR_WIDTH == 0
    } else {
        rest == 0
    }
}

// A line that is known to be of digits alone. None of one that cannot be read.
pub fn read_digits(line: &[u8]) -> Option<Record>
    requires { (record_length ≤ length line.now) × (are_digits line.now ≡ true) }
    ensures { result ≡ reading_of line.now }
{
    let record = read_record(&Digits { line });
    rest_inside(record.number, line.len() - RECORD_LENGTH).then_some(record)
}

#[tactic(auto, using(std::proofs::lemmas::Bool::Decides::nat_tests), unfolding(crate::specs::Reading::layout_kept, crate::specs::Reading::reading_of))]
pub fn read_answer(line: &[u8]) -> Option<Record>
    ensures { result ≡ reading_of line.now }
{
    if line.len() < RECORD_LENGTH || !are_digits(line) {
        return None;
    }
    read_digits(line)
}

// The bits of the cell i, re before im: those of pair k are cells 2k and 2k + 1.
pub fn cell_bits(line: &[u8], i: usize) -> u64
    requires { (are_digits line.now ≡ true) × (record_length + (i + 1) * float_width ≤ length line.now) }
    ensures { result ≡ cell_bits_of i line.now }
{
    Digits { line }.field(RECORD_LENGTH + i * FLOAT_WIDTH, FLOAT_WIDTH)
}

// As many cells as are lent, from the first on, as values.
pub fn read_cells(line: &[u8], out: &mut [f64])
    requires { (are_digits line.now ≡ true)
        × (record_length + length out.old * float_width ≤ length line.now) }
    ensures { out.new ≡ cells_read (length out.old) line.now }
{
    for (i, cell) in out.iter_mut().enumerate() {
        *cell = of_pattern(cell_bits(line, i));
    }
}
