// An answer line written: the record, and behind the number 0 every cell by its bits.
// From docs/SCOPE.md, The frame program. Promised: written_of of specs/Writing.antt of any five numbers, line_of of an answer, over the first
// bytes of the lent ones; `offer_line` and `offer_answer` ask for no room, say how long the line is, and write it where it fits.
ghost use Rattle.std.specs.Prelude.{◌≡◌, ◌+◌, ◌*◌, ◌≤◌, length};
ghost use Rattle.frame.specs.Layout.{record_length, float_width, longest_cells};
ghost use Rattle.frame.specs.Over.{over, offered};
ghost use Rattle.frame.specs.Writing.{twos_complement, spelled_numbers, record_of, cells_of, written_of, line_of};
ghost use Rattle.frame.specs.Reading.{said_of};

use crate::digits::spell;
use crate::layout::{
    BACKWARD_AT, BYTE_WIDTH, COUNT_WIDTH, FLOAT_WIDTH, LONGEST_SUM_AT, NUMBER_AT, RECORD_LENGTH,
    RUNGS_AT, ZEROS_AT,
};
use crate::reading::Record;
use call::answer::Answer;
use machine::bits::pattern;

// What a refusal says beside its number.
const NO_COUNTS: Record = Record {
    number: 0,
    zeros: 0,
    longest_sum: 0,
    rungs: 0,
    backward: 0,
    pairs: 0,
};

// A count of zeros in two bytes.
#[tactic(auto, using(std::proofs::lemmas::Bool::Decides::nat_tests), unfolding(crate::specs::Writing::twos_complement))]
fn twos_complement(zeros: i32) -> u64
    ensures { result ≡ twos_complement zeros }
{
    u64::from(zeros.cast_unsigned() % 65536)
}

// What the record says: of a refusal its number, and no counts.
#[tactic(auto, unfolding(crate::specs::Reading::said_of))]
fn said(answer: Answer) -> Record
    ensures { result ≡ said_of answer 0 }
{
    match answer {
        Ok(counts) => Record {
            number: 0,
            zeros: counts.zeros,
            longest_sum: counts.longest_sum,
            rungs: counts.rungs,
            backward: counts.backward,
            pairs: 0,
        },
        Err(refusal) => Record {
            number: refusal.number(),
            ..NO_COUNTS
        },
    }
}

// Any five numbers, also one that is no refusal's with counts beside it. How many pairs there are is not written: the cells tell it.
pub fn write_numbers(numbers: Record, out: &mut [u8])
    requires { record_length ≤ length out.old }
    ensures { out.new ≡ over 0 (spelled_numbers numbers) out.old }
{
    spell(u64::from(numbers.number), BYTE_WIDTH, out, NUMBER_AT);
    spell(twos_complement(numbers.zeros), COUNT_WIDTH, out, ZEROS_AT);
    spell(
        u64::from(numbers.longest_sum),
        COUNT_WIDTH,
        out,
        LONGEST_SUM_AT,
    );
    spell(u64::from(numbers.rungs), COUNT_WIDTH, out, RUNGS_AT);
    spell(u64::from(numbers.backward), COUNT_WIDTH, out, BACKWARD_AT);
}

pub fn write_record(answer: Answer, out: &mut [u8])
    requires { record_length ≤ length out.old }
    ensures { out.new ≡ over 0 (record_of answer) out.old }
{
    write_numbers(said(answer), out);
}

// Every cell, from the place `at` on; the answer is the place behind them.
pub fn write_cells(cells: &[f64], out: &mut [u8], at: usize) -> usize
    requires { at + length cells.now * float_width ≤ length out.old }
    ensures { (result ≡ at + length cells.now * float_width)
        × (out.new ≡ over at (cells_of cells.now) out.old) }
{
    for (i, &x) in cells.iter().enumerate() {
        spell(pattern(x), FLOAT_WIDTH, out, at + i * FLOAT_WIDTH);
    }
    at + cells.len() * FLOAT_WIDTH
}

pub fn write_line(numbers: Record, cells: &[f64], out: &mut [u8]) -> usize
    requires { length (written_of numbers cells.now) ≤ length out.old }
    ensures { (result ≡ length (written_of numbers cells.now))
        × (out.new ≡ over 0 (written_of numbers cells.now) out.old) }
{
    write_numbers(numbers, out);
    if numbers.number == 0 {
        write_cells(cells, out, RECORD_LENGTH)
    } else {
        RECORD_LENGTH
    }
}

pub fn write_answer(answer: Answer, cells: &[f64], out: &mut [u8]) -> usize
    requires { length (line_of answer cells.now) ≤ length out.old }
    ensures { (result ≡ length (line_of answer cells.now))
        × (out.new ≡ over 0 (line_of answer cells.now) out.old) }
{
    write_line(said(answer), cells, out)
}

// The record, and behind the number 0 the cells.
fn line_length(numbers: Record, cells: &[f64]) -> usize
    requires { length cells.now ≤ longest_cells }
    ensures { result ≡ length (written_of numbers cells.now) }
{
    if numbers.number == 0 {
        RECORD_LENGTH + cells.len() * FLOAT_WIDTH
    } else {
        RECORD_LENGTH
    }
}

pub fn offer_line(numbers: Record, cells: &[f64], out: &mut [u8]) -> usize
    requires { length cells.now ≤ longest_cells }
    ensures { (result ≡ length (written_of numbers cells.now))
        × (out.new ≡ offered (written_of numbers cells.now) out.old) }
{
    let needed = line_length(numbers, cells);
    if out.len() < needed {
        return needed;
    }
    write_line(numbers, cells, out)
}

pub fn offer_answer(answer: Answer, cells: &[f64], out: &mut [u8]) -> usize
    requires { length cells.now ≤ longest_cells }
    ensures { (result ≡ length (line_of answer cells.now))
        × (out.new ≡ offered (line_of answer cells.now) out.old) }
{
    offer_line(said(answer), cells, out)
}
