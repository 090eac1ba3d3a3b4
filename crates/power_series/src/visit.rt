// The downward visit, one order at a time: v + n - 1 to v, each entry into its two cells from the top down, until a zeroed order stops it;
// the cells below hold the fixed not-a-number. From src/amos/power_series.rs, i_power_series (ZSERI, from 20 on). Promised: visit_of of
// specs/Visit.antt, record and cells.
ghost use Rattle.std.specs.Prelude.{◌≡◌, ◌*◌, ◌≤◌, length, drop};
ghost use Rattle.power_series.specs.Entries.{orders, Kept};
ghost use Rattle.power_series.specs.Visit.{walk_of, visit_of};
ghost use Rattle.power_series.specs.shapes.Visit.{concluded_of};

use crate::entries::Entries;
use cells::fill::fill;
use machine::constants::not_a_number;
use series_step::descent::{Descent, start};
use series_step::setting::Setting;
use series_step::step::step;

// How many orders were set to zero, whether and where the visit stopped, the terms of its longest sum, and its steps of recurrence.
// Finished are the entries from the place up; it is 0 where the visit did not stop. visited_of of specs/Visit.antt has the two apart, and
// callers read the place in either case: an Option<usize> would be read as `visit.stopped_at.unwrap_or(0)`. It has the three counts apart too, and
// not as one Tally: `concluded` sets them as visited_of does, and `tiny` as tiny_of of specs/Tiny.antt.
#[derive(Clone, Copy)]
pub struct Visit {
    pub zeros: u32,
    pub stopped: bool,
    pub place: usize,
    pub longest_sum: u32,
    pub rungs: u32,
}

// The state where the visit ends, and how many orders it left.
#[derive(Clone, Copy)]
pub struct Standing {
    pub left: usize,
    pub state: Descent,
}

fn descend(g: Setting, out: &mut Entries) -> Standing
    ensures kept { Kept out.old out.new }
    ensures visit { (result ≡ (walk_of g (orders out.old)).standing)
        × (drop (result.left * 2) out.new.cells.now ≡ (walk_of g (orders out.old)).cells) }
{
    let n = out.len();
    let mut state = start();
    for k in (0..n).rev() {
        if state.stopped {
            return Standing { left: k + 1, state };
        }
        state = step(g, k as u32, state);
        out.put(k, state.above);
    }
    Standing { left: 0, state }
}

// The record of a visit that ended there, and the fixed not-a-number below it.
pub fn concluded(r: Standing, out: &mut [f64]) -> Visit
    requires { (length out.old ≤ 1024) × (r.left * 2 ≤ length out.old) }
    ensures { (result ≡ (concluded_of r out.old).visit)
        × (out.new ≡ (concluded_of r out.old).cells) }
{
    let left = r.left;
    let s = r.state;
    let c = s.counts;
    let below = left * 2;
    fill(&mut out[0..below], not_a_number());
    Visit {
        zeros: c.zeros,
        stopped: s.stopped,
        place: left,
        longest_sum: c.longest_sum,
        rungs: c.rungs,
    }
}

impl<'a> Entries<'a> {
    // the same of a visit over these entries
    pub fn concluded(&mut self, r: Standing) -> Visit
        requires { r.left ≤ orders self.old }
        ensures kept { Kept self.old self.new }
        ensures visit { (result ≡ (concluded_of r self.old.cells.now).visit)
            × (self.new.cells.now ≡ (concluded_of r self.old.cells.now).cells) }
    {
        concluded(r, self.cells)
    }
}

pub fn stepwise(g: Setting, out: &mut Entries) -> Visit
    ensures kept { Kept out.old out.new }
    ensures visit { (result ≡ (visit_of g (orders out.old)).visit)
        × (out.new.cells.now ≡ (visit_of g (orders out.old)).cells) }
{
    let r = descend(g, out);
    out.concluded(r)
}
