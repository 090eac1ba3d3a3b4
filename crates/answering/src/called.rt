// What a frame asks, answered: the call on cells of its own, or refusal 1 where no buffer is that long. A frame of few pairs clears few
// cells. Promised: the line of called_of of specs/Called.antt where the lent bytes have room for it, and its length whether or not they have.
ghost use Rattle.std.specs.Prelude.{◌≡◌, ◌*◌, ◌≤◌, length};
ghost use Rattle.call.specs.Answer.{refused_of};
ghost use Rattle.frame.specs.Layout.{record_length};
ghost use Rattle.frame.specs.Over.{offered};
ghost use Rattle.frame.specs.Writing.{record_of};
ghost use Rattle.answering.specs.Called.{called_of, called_line};

use bessel::i::i;
use bessel::k::k;
use call::answer::Answer;
use call::kind::Kind;
use call::limits::LARGEST_COUNT;
use frame::asking::Asking;
use frame::layout::RECORD_LENGTH;
use frame::writing::{offer_answer, write_record};
use refusal::refusal::Refusal;

const FEW: usize = 16;

const FEW_CELLS: usize = 2 * FEW;

const ALL_CELLS: usize = 2 * LARGEST_COUNT;

pub fn refuse(refusal: Refusal, out: &mut [u8]) -> usize
    ensures { (result ≡ record_length)
        × (out.new ≡ offered (record_of (refused_of refusal)) out.old) }
{
    if out.len() < RECORD_LENGTH {
        return RECORD_LENGTH;
    }
    write_record(Err(refusal), out);
    RECORD_LENGTH
}

fn call(asking: Asking, cells: &mut [f64]) -> Answer
    ensures { (result ≡ (called_of asking (length cells.old)).answer)
        × (cells.new ≡ (called_of asking (length cells.old)).cells) }
{
    match asking.kind {
        Kind::K => k(asking.scaled, asking.v, asking.re, asking.im, cells),
        Kind::I => i(asking.scaled, asking.v, asking.re, asking.im, cells),
    }
}

fn on_cells(asking: Asking, cells: &mut [f64], out: &mut [u8]) -> usize
    requires { (length cells.old ≡ asking.count * 2)
        × (asking.count ≤ 512) }
    ensures { (result ≡ length (called_line asking))
        × (out.new ≡ offered (called_line asking) out.old) }
{
    let answer = call(asking, cells);
    offer_answer(answer, cells, out)
}

// On N cells of its own, as many of them as are asked for.
fn with_cells<const N: usize>(asking: Asking, out: &mut [u8]) -> usize
    requires { (asking.count * 2 ≤ N) × (N ≤ 1024) }
    ensures { (result ≡ length (called_line asking))
        × (out.new ≡ offered (called_line asking) out.old) }
{
    let mut cells = [0.0; N];
    on_cells(asking, &mut cells[..asking.count * 2], out)
}

// No pair at all is left to the call, which refuses it for its length too.
pub fn answer_asking(asking: Asking, out: &mut [u8]) -> usize
    ensures { (result ≡ length (called_line asking))
        × (out.new ≡ offered (called_line asking) out.old) }
{
    if asking.count > LARGEST_COUNT {
        return refuse(Refusal::Length, out);
    }
    if asking.count <= FEW {
        return with_cells::<FEW_CELLS>(asking, out);
    }
    with_cells::<ALL_CELLS>(asking, out)
}
