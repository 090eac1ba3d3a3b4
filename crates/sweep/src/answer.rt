// One request: its frames handed to the writer, or its refusal told. No contract of the kit says what a write was given, so `send` and `say`
// demand that they are given exactly what the line comes to, and what is counted was written. Promised: AfterLine of specs/Turn.antt.
ghost use Rattle.std.specs.Prelude.{◌≡◌, ◌+◌, ◌≤◌, ◌<◌, length};
ghost use Rattle.refusal.specs.Number.{number_of};
ghost use Rattle.splitting.specs.Count.{counted};
ghost use Rattle.sweeping.specs.Line.{line_swept, line_bytes};
ghost use Rattle.sweep.specs.Text.{Told};
ghost use Rattle.sweep.specs.Turn.{most_room, AfterLine};

use crate::text::refusal_text;
use crate::turn::Turn;
use refusal::refusal::Refusal;
use splitting::count::count;
use splitting::state::State;
use splitting::telling::{STDERR_FILENO, STDOUT_FILENO};
use sweeping::line::sweep_line;

// The one place where frames leave the program: how many bytes of them the writer took. The line is there for the demand.
fn send(frames: &[u8], line: &[u8]) -> usize
    requires { frames.now ≡ line_bytes line.now }
    ensures { result ≤ length frames.now }
{
    if io::write_all(STDOUT_FILENO, frames) {
        return frames.len();
    }
    0
}

// The one place where a refusal is told: 1 where the writer took it. The line, and how many requests came before, are there for the demand.
fn say(text: &[u8], k: u64, before: u64, number: u32, line: &[u8]) -> u64
    requires { Told k number text.now
        × (k ≡ counted (before + 1))
        × (number ≡ (line_swept line.now).number)
        × (0 < number) }
    ensures { result ≤ 1 }
{
    if io::write_all(STDERR_FILENO, text) {
        return 1;
    }
    0
}

fn refuse(refusal: Refusal, line: &[u8], turn: Turn) -> Turn
    requires { number_of refusal ≡ (line_swept line.now).number }
    ensures { AfterLine line.now turn result }
{
    let k = count(turn.requests, 1);
    let number = refusal.number();
    let text = refusal_text(k, u64::from(number));
    let told = say(text.as_bytes(), k, turn.requests, number, line);
    if told < 1 {
        return Turn {
            state: State::Unwritten,
            ..turn
        };
    }
    Turn {
        requests: k,
        refused: count(turn.refused, told),
        state: State::Going,
        ..turn
    }
}

fn accept(frames: &[u8], line: &[u8], turn: Turn) -> Turn
    requires { (frames.now ≡ line_bytes line.now) × ((line_swept line.now).number ≡ 0) }
    ensures { AfterLine line.now turn result }
{
    let written = send(frames, line);
    if written < frames.len() {
        return Turn {
            state: State::Unwritten,
            ..turn
        };
    }
    Turn {
        requests: count(turn.requests, 1),
        sent: count(turn.sent, written as u64),
        state: State::Going,
        ..turn
    }
}

pub fn answer(line: &[u8], out: &mut [u8], turn: Turn) -> Turn
    requires { most_room ≤ length out.old }
    ensures { AfterLine line.now turn result }
{
    match sweep_line(line, out) {
        Ok(needed) => accept(&out[..needed as usize], line, turn),
        Err(refusal) => refuse(refusal, line, turn),
    }
}
