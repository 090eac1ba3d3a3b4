// Whether a line of digits that is as long as an answer line may be, and its newline, come next: then the line need not be held, and no byte of it is looked
// at twice. Promised: LineAhead of specs/Ahead.antt.
ghost use Rattle.std.specs.Prelude.{◌<◌, length, IfSome};
ghost use Rattle.morning.specs.Ahead.{StartsWell, LineAhead};

use frame::digits::are_digits;
use frame::layout::{LONGEST_LINE, PAIR_WIDTH, RECORD_LENGTH};
use splitting::cut::NEWLINE;

// Pair by pair, behind a record. `for n in (RECORD_LENGTH..=LONGEST_LINE).step_by(PAIR_WIDTH)` would be no plainer: it needs a test that there is
// a byte at n in the place of the loop's, and, only so that no pair behind the longest line is looked at for nothing, the test that n is the last.
fn pairs_ahead(chunk: &[u8], at: usize) -> Option<usize>
    requires { StartsWell chunk.now at }
    ensures { IfSome result (LineAhead chunk.now at) }
{
    let mut n = RECORD_LENGTH;
    while at + n < chunk.len() {
        if chunk[at + n] == NEWLINE {
            return Some(n);
        }
        if n >= LONGEST_LINE {
            return None;
        }
        if chunk.len() - at - n < PAIR_WIDTH {
            return None;
        }
        if !are_digits(&chunk[at + n..at + n + PAIR_WIDTH]) {
            return None;
        }
        n += PAIR_WIDTH;
    }
    None
}

// How many digits, behind which the newline stands.
pub fn digits_ahead(chunk: &[u8], at: usize) -> Option<usize>
    requires { at < length chunk.now }
    ensures { IfSome result (LineAhead chunk.now at) }
{
    if chunk.len() - at < RECORD_LENGTH {
        return None;
    }
    if !are_digits(&chunk[at..at + RECORD_LENGTH]) {
        return None;
    }
    pairs_ahead(chunk, at)
}
