// The points of a sweep, and the frame that asks at each, one line behind the other.
// From docs/SCOPE.md, The sweep. Promised: specs/Points.antt, each operation rounded once, in this order, for every request.
ghost use Rattle.std.specs.Prelude.{◌≡◌, ◌*◌, ◌≤◌, length};
ghost use Rattle.frame.specs.Over.{over};
ghost use Rattle.sweeping.specs.Points.{step_of, part_with, fields_with, frames_up_to};
ghost use Rattle.sweeping.specs.Sweep.{line_length};

use crate::request::Request;
use frame::asking::{Fields, write_asking};
use frame::layout::ASKING_LENGTH;
use machine::bits::pattern;
use splitting::cut::NEWLINE;

// a frame's digits and its newline
pub const LINE_LENGTH: usize = 57;

fn step(first: f64, last: f64, steps: u32) -> f64
    requires { 1 ≤ steps }
    ensures { result ≡ step_of first last steps }
{
    (last - first) / f64::from(steps - 1)
}

// With the step worked out before, once for all points.
fn part(first: f64, step: f64, steps: u32, j: u32) -> f64
    ensures { result ≡ part_with first step steps j }
{
    if steps == 1 {
        return first;
    }
    first + f64::from(j) * step
}

pub fn fields_with(r: Request, re: f64, im: f64) -> Fields
    ensures { result ≡ fields_with r re im }
{
    Fields {
        kind: r.kind,
        scaling: r.scaling,
        count: r.count,
        v: pattern(r.v),
        re: pattern(re),
        im: pattern(im),
    }
}

pub fn write_frames(r: Request, out: &mut [u8])
    requires { (1 ≤ r.steps) × (r.steps ≤ 4096) × (r.steps * line_length ≤ length out.old) }
    ensures { out.new ≡ over 0 (frames_up_to r r.steps) out.old }
{
    let step_re = step(r.first_re, r.last_re, r.steps);
    let step_im = step(r.first_im, r.last_im, r.steps);
    // The place goes along with j: `let at = j as usize * LINE_LENGTH;` in the loop converts and multiplies at each point, and is no plainer.
    let mut at = 0;
    for j in 0..r.steps {
        let re = part(r.first_re, step_re, r.steps, j);
        let im = part(r.first_im, step_im, r.steps, j);
        write_asking(fields_with(r, re, im), out, at);
        out[at + ASKING_LENGTH] = NEWLINE;
        at += LINE_LENGTH;
    }
}
