// How a program ended, told: one line on standard error where something was lost, and the status, one digit and a newline, on descriptor 3
// where that is open. A program itself ends with status 0 always; whoever starts it turns the digit into a status.
// No contract of the kit says what a write was given, so `send_loss` and `send_status` demand that they are given exactly loss_of and status_of of
// specs/State.antt, and `send_lent` that what it is given is what was lent.
ghost use Rattle.std.specs.Prelude.{◌≡◌, None, Some, MatchOption};
ghost use Rattle.splitting.specs.State.{status_of, loss_of};

use crate::cut::NEWLINE;
use crate::state::{State, status};

pub const STDOUT_FILENO: i32 = 1;

pub const STDERR_FILENO: i32 = 2;

const STATUS_FILENO: i32 = 3;

// What is told of a loss: a line for a write that failed, a line for a read that failed.
pub fn loss<'a>(state: State, unwritten: &'a [u8], unread: &'a [u8]) -> Option<&'a [u8]>
    ensures { MatchOption result (loss_of state unwritten.now unread.now ≡ None) (λ y. loss_of state unwritten.now unread.now ≡ Some y.now) }
{
    match state {
        State::Unwritten => Some(unwritten),
        State::Unread => Some(unread),
        State::Going | State::Whole => None,
    }
}

// The two writes, for all that is told: no contract holds them, and tools/program/lost.py reads what a program writes by them.
fn write_loss(loss: Option<&[u8]>) {
    if let Some(line) = loss {
        io::write_all(STDERR_FILENO, line);
    }
}

fn write_status(digit: u8) {
    io::write_all(STATUS_FILENO, &[digit, NEWLINE]);
}

// The one place where an end's loss is told. The state and the two lines are there for the demand.
fn send_loss(loss: Option<&[u8]>, state: State, unwritten: &[u8], unread: &[u8])
    requires { MatchOption loss (loss_of state unwritten.now unread.now ≡ None) (λ y. loss_of state unwritten.now unread.now ≡ Some y.now) }
{
    write_loss(loss);
}

// The one place where an end's status is told. The state, and how many were refused, are there for the demand.
fn send_status(digit: u8, state: State, refused: u64)
    requires { digit ≡ status_of state refused }
{
    write_status(digit);
}

// The line for a write that failed, and the line for a read that failed, are the program's.
pub fn tell_end(state: State, refused: u64, unwritten: &[u8], unread: &[u8]) {
    send_loss(loss(state, unwritten, unread), state, unwritten, unread);
    send_status(status(state, refused), state, refused);
}

// The one place where a line and a digit are told as they are. What was lent is there for the demand.
fn send_lent(loss: Option<&[u8]>, digit: u8, lent: Option<&[u8]>, given: u8)
    requires line { loss ≡ lent }
    requires digit { digit ≡ given }
{
    write_loss(loss);
    write_status(digit);
}

// The same of any line and any digit, for a program that has other ends than State's.
pub fn tell(loss: Option<&[u8]>, status: u8) {
    send_lent(loss, status, loss, status);
}

#[cfg(test)]
mod tests {
    use super::*;
    use std::fs::{self, OpenOptions};
    use std::io::{Read, Seek, SeekFrom};
    use std::os::fd::AsRawFd;

    // No descriptor is open in a test but the first three, so that the file is the one on which the digit is told. It has no name any more by then.
    #[test]
    fn any_line_and_any_digit(rt: HostRuntime) -> std::io::Result<()> {
        let mut told = OpenOptions::new()
            .read(true)
            .write(true)
            .create(true)
            .truncate(true)
            .open(&rt, "told")?;
        fs::remove_file(&rt, "told")?;
        assert_eq!(rt; told.as_raw_fd(), STATUS_FILENO);
        tell(Some(b"told: a line and the digit 7\n"), b'7');
        tell(None, b'x');
        tell(Some(b""), b'0');
        told.seek(SeekFrom::Start(0))?;
        let mut bytes = [0u8; 16];
        let n = told.read(&mut bytes)?;
        assert!(rt; &bytes[..n] == b"7\nx\n0\n".as_slice());
        Ok(())
    }
}
