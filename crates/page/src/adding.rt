// A line added to a page, and a page joined to another. A page of zeros is the empty one.
// From docs/SCOPE.md, The page. Promised, for every page, whatever its cells hold, and every line: specs/Joining.antt. Where 15 is given, each page
// stands as it was.
ghost use Rattle.std.specs.Prelude.{◌≡◌, true, ◌+◌, ◌≤◌, ◌<◌, leb, length};
ghost use Rattle.call.specs.Checks.{number_given};
ghost use Rattle.frame.specs.Layout.{record_length};
ghost use Rattle.frame.specs.Digits.{are_digits};
ghost use Rattle.frame.specs.Reading.{reading_of};
ghost use Rattle.page.specs.Layout.{cells, sums, most_lines};
ghost use Rattle.page.specs.Saying.{said_in, Known};
ghost use Rattle.page.specs.Parts.{one_page};
ghost use Rattle.page.specs.Joining.{joined_cells, join_number, join_page, line_number, line_page};
ghost use Rattle.page.specs.Steps.{with_added, with_line, with_answered};

use crate::layout::{
    BACKWARD_AT, LINES_AT, LONGEST_AT, MOST_LINES, RUNGS_AT, UNREADABLE_AT, ZEROS_AT,
};
use crate::saying::{magnitude, said};
use frame::reading::{Record, read_answer, read_digits};
use refusal::refusal::Refusal;

fn add(n: u64, page: &mut [u64; 58], at: usize)
    requires { at < cells }
    ensures { page.new ≡ with_added at n page.old }
{
    page[at] = page[at].saturating_add(n);
}

fn add_answered(r: Record, page: &mut [u64; 58])
    requires { r.longest_sum < sums }
    ensures { page.new ≡ with_answered r page.old }
{
    add(1, page, LONGEST_AT + r.longest_sum as usize);
    add(u64::from(r.rungs), page, RUNGS_AT);
    add(u64::from(r.backward), page, BACKWARD_AT);
    add(magnitude(r.zeros), page, ZEROS_AT);
}

// One line more, and one more in another cell.
fn count_line(page: &mut [u64; 58], at: usize)
    requires { at < cells }
    ensures { page.new ≡ with_line at page.old }
{
    add(1, page, LINES_AT);
    add(1, page, at);
}

// What a line says, added. The number of a line is the place of its cell.
fn add_said(line: Option<Record>, page: &mut [u64; 58])
    requires { Known line }
    ensures { page.new ≡ joined_cells page.old (one_page line) }
{
    match line {
        Some(r) => {
            count_line(page, r.number as usize);
            if r.number == 0 {
                add_answered(r, page);
            }
        }
        None => count_line(page, UNREADABLE_AT),
    }
}

fn add_read(reading: Option<Record>, page: &mut [u64; 58]) -> Result<(), Refusal>
    ensures { (number_given result ≡ join_number page.old (one_page (said_in reading)))
        × (page.new ≡ join_page page.old (one_page (said_in reading))) }
{
    if page[LINES_AT] >= MOST_LINES {
        return Err(Refusal::Full);
    }
    add_said(said(reading), page);
    Ok(())
}

pub fn add_line(page: &mut [u64; 58], line: &[u8]) -> Result<(), Refusal>
    ensures { (number_given result ≡ line_number page.old line.now)
        × (page.new ≡ line_page page.old line.now) }
{
    add_read(read_answer(line), page)
}

// The same of a line that is known to be of digits alone, and long enough.
pub fn add_digits(page: &mut [u64; 58], line: &[u8]) -> Result<(), Refusal>
    requires { (record_length ≤ length line.now) × (are_digits line.now ≡ true) }
    ensures { (number_given result ≡ line_number page.old line.now)
        × (page.new ≡ line_page page.old line.now) }
{
    add_read(read_digits(line), page)
}

fn join_cells(into: &mut [u64; 58], from: &[u64; 58])
    ensures { into.new ≡ joined_cells into.old from.now }
{
    // With `into.iter_mut().zip(from)` the goal `returns` stayed open: the loop then has the pairs it yielded in place of the cells and their index.
    for (i, cell) in into.iter_mut().enumerate() {
        *cell = cell.saturating_add(from[i]);
    }
}

#[tactic(auto, using(std::proofs::lemmas::Bool::Decides::nat_tests))]
fn is_room(into: u64, from: u64) -> bool
    ensures { result ≡ leb (into + from) most_lines }
{
    into.saturating_add(from) <= MOST_LINES
}

pub fn join(into: &mut [u64; 58], from: &[u64; 58]) -> Result<(), Refusal>
    ensures { (number_given result ≡ join_number into.old from.now)
        × (into.new ≡ join_page into.old from.now) }
{
    if !is_room(into[LINES_AT], from[LINES_AT]) {
        return Err(Refusal::Full);
    }
    join_cells(into, from);
    Ok(())
}
