// A request line, answered: the frames of its sweep, or a refusal's number.
// From docs/SCOPE.md, The sweep. Promised for every line: line_swept and line_bytes of specs/Line.antt.
ghost use Rattle.std.specs.Prelude.{◌≡◌};
ghost use Rattle.frame.specs.Over.{offered};
ghost use Rattle.sweeping.specs.Sweep.{swept_in};
ghost use Rattle.sweeping.specs.Line.{line_swept, line_bytes};

use crate::request::read_request;
use crate::sweep::sweep;
use refusal::refusal::Refusal;

// How many bytes the frames are, or the refusal.
pub fn sweep_line(line: &[u8], out: &mut [u8]) -> Result<u32, Refusal>
    ensures { (swept_in result ≡ line_swept line.now) × (out.new ≡ offered (line_bytes line.now) out.old) }
{
    match read_request(line) {
        Some(request) => sweep(request, out),
        None => Err(Refusal::Malformed),
    }
}
