// A sweep, written over the first of the lent bytes where they have room for all of its frames; else they stay as they were.
// From docs/SCOPE.md, The sweep. Promised for every request: swept_of and frames_of of specs/Sweep.antt.
ghost use Rattle.std.specs.Prelude.{◌≡◌, ◌*◌, ◌≤◌};
ghost use Rattle.frame.specs.Over.{offered};
ghost use Rattle.sweeping.specs.Points.{frames_up_to};
ghost use Rattle.sweeping.specs.Sweep.{line_length, swept_in, swept_of, frames_of};

use crate::checks::sweep_verdict;
use crate::points::{LINE_LENGTH, write_frames};
use crate::request::{Request, normalised_request};
use refusal::refusal::Refusal;

// How many bytes the frames are.
fn offer_frames(r: Request, out: &mut [u8]) -> u32
    requires { (1 ≤ r.steps) × (r.steps ≤ 4096) }
    ensures { (result ≡ r.steps * line_length)
        × (out.new ≡ offered (frames_up_to r r.steps) out.old) }
{
    let needed = r.steps as usize * LINE_LENGTH;
    if needed <= out.len() {
        write_frames(r, out);
    }
    needed as u32
}

// How many bytes the frames are, or the refusal.
pub fn sweep(request: Request, out: &mut [u8]) -> Result<u32, Refusal>
    ensures { (swept_in result ≡ swept_of request) × (out.new ≡ offered (frames_of request) out.old) }
{
    let r = normalised_request(request);
    sweep_verdict(r)?;
    Ok(offer_frames(r, out))
}
