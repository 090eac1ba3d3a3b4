// The page as text: a part a line, a word and its number in decimal. Promised: page_text of specs/Rows.antt, for every page.
ghost use Rattle.std.specs.Prelude.{◌≡◌, ◌++◌, ◌+◌, ◌≤◌, ◌<◌, length};
ghost use Rattle.page.specs.Layout.{numbers, sums};
ghost use Rattle.morning.specs.Rows.{row_of, pair_of, number_row, refused_rows, longest_rows, last_rows, page_text, most_text};

use page::layout::{BACKWARD_AT, LONGEST_AT, NUMBERS, RUNGS_AT, SUMS, UNREADABLE_AT, ZEROS_AT};
use refusal::refusal::is_listed;
use wording::pieces::Text;

// A word, a number and the newline.
fn put_row(word: &[u8], n: u64, text: &mut Text<4096>)
    requires { (length word.now ≤ 16) × (length text.old + 37 ≤ most_text) }
    ensures { (length text.new ≤ length text.old + 37) × (text.new ≡ text.old ++ row_of word.now n) }
{
    text.put(word);
    text.put_number(n);
    text.put(b"\n");
}

// A word, what it counts, and how many.
fn put_pair(word: &[u8], k: u64, n: u64, text: &mut Text<4096>)
    requires { (length word.now ≤ 16) × (length text.old + 73 ≤ most_text) }
    ensures { (length text.new ≤ length text.old + 73) × (text.new ≡ text.old ++ pair_of word.now k n) }
{
    text.put(word);
    text.put_number(k);
    put_row(b" ", n, text);
}

// The lines that a number refused, where the list has it.
fn put_number_row(k: usize, page: &[u64; 58], text: &mut Text<4096>)
    requires { (k < numbers) × (length text.old + 73 ≤ most_text) }
    ensures { (length text.new ≤ length text.old + 73) × (text.new ≡ text.old ++ number_row k page.now) }
{
    if is_listed(k as u32) {
        put_pair(b"refused ", k as u64, page[k], text);
    }
}

// The refused lines, of each number of the list.
fn put_refused(page: &[u64; 58], text: &mut Text<4096>)
    requires { length text.old + 2336 ≤ most_text }
    ensures { (length text.new ≤ length text.old + 2336) × (text.new ≡ text.old ++ refused_rows numbers page.now) }
{
    for k in 0..NUMBERS {
        put_number_row(k, page, text);
    }
}

// The answered lines, by their longest sum.
fn put_longest(page: &[u64; 58], text: &mut Text<4096>)
    requires { length text.old + 1460 ≤ most_text }
    ensures { (length text.new ≤ length text.old + 1460) × (text.new ≡ text.old ++ longest_rows sums page.now) }
{
    for l in 0..SUMS {
        put_pair(b"longest ", l as u64, page[LONGEST_AT + l], text);
    }
}

fn put_last(page: &[u64; 58], text: &mut Text<4096>)
    requires { length text.old + 148 ≤ most_text }
    ensures { text.new ≡ text.old ++ last_rows page.now }
{
    put_row(b"rungs ", page[RUNGS_AT], text);
    put_row(b"backward ", page[BACKWARD_AT], text);
    put_row(b"zeros ", page[ZEROS_AT], text);
    put_row(b"unreadable ", page[UNREADABLE_AT], text);
}

pub fn page_text(page: &[u64; 58]) -> Text<4096>
    ensures { result ≡ page_text page.now }
{
    let mut text = Text::new();
    put_row(b"answered ", page[0], &mut text);
    put_refused(page, &mut text);
    put_longest(page, &mut text);
    put_last(page, &mut text);
    text
}
