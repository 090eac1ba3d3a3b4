// What is told at the end: the page on standard output, a line on standard error for lines too many or for what was lost, and the status, one digit and a
// newline, on descriptor 3 where that is open. The program itself ends with status 0 always; whoever starts it turns the digit into a status.
// No contract of the kit says what a write was given, so `send` demands that it is given exactly the text of the page of what was read.
ghost use Rattle.std.specs.Prelude.{◌≡◌};
ghost use Rattle.splitting.specs.declared.state.State.TheVariants.{Whole};
ghost use Rattle.morning.specs.Turn.{Served};
ghost use Rattle.morning.specs.Rows.{page_text};

use crate::rows::page_text;
use crate::turn::Turn;
use splitting::state::State;
use splitting::telling::{STDERR_FILENO, STDOUT_FILENO};

// The one place where a page leaves the program: that of the whole input. How it ended is there for the demand. The two go apart, here and below,
// since Served of specs/Turn.antt takes them so, and with it what docs/TRACE.md holds that is asked here.
fn send(text: &[u8], page: &[u64; 58], last: Turn) -> State
    requires { (text.now ≡ page_text page.now) × (last.state ≡ Whole) × Served page.now last }
{
    if io::write_all(STDOUT_FILENO, text) {
        return State::Whole;
    }
    State::Unwritten
}

// A page of a part of the input is not shown.
fn show(last: Turn, page: &[u64; 58]) -> State
    requires { Served page.now last }
{
    if last.state != State::Whole {
        return last.state;
    }
    let text = page_text(page);
    send(text.as_bytes(), page, last)
}

pub fn tell(last: Turn, page: &[u64; 58])
    requires { Served page.now last }
{
    let state = show(last, page);
    if last.refused > 0 {
        io::write_all(STDERR_FILENO, b"line 4294967296: refusal 15\n");
    }
    let unwritten = b"morning: the page could not be written\n";
    let unread = b"morning: the input could not be read to its end; there is no page\n";
    splitting::telling::tell_end(state, last.refused, unwritten, unread);
}
