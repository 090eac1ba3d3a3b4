// The visit where its two highest orders are both seeded far from underflow, as nearly all are: their sums side by side, and the recurrence
// below them, where the mark stays clear. Any other visit goes order by order. Promised: visit_of of specs/Visit.antt, record and cells;
// the shapes on the way are those of specs/shapes/Pair.antt.
ghost use Rattle.std.specs.Prelude.{◌≡◌, ◌*◌, ◌%◌, ◌<◌, drop};
ghost use Rattle.power_series.specs.Entries.{orders, Kept};
ghost use Rattle.power_series.specs.Visit.{walk_of, visit_of};
ghost use Rattle.power_series.specs.shapes.Pair.{entered_of, pair_of, Settled, Begun, walk_from};

use crate::entries::Entries;
use crate::visit::{Standing, Visit, stepwise};
use complex::number::Complex;
use machine::constants::Machine;
use series_step::descent::{Descent, start};
use series_step::leading::leading;
use series_step::mark::marked;
use series_step::recurred::recurred;
use series_step::seed::kept;
use series_step::setting::Setting;
use series_sum::sum::Sum;
use series_sum::sums::{Two, two_sums};

fn entered(lead: Complex, whole: Complex, sum: Sum, s: Descent) -> Descent
    requires { s.seeded < 2 }
    ensures { result ≡ entered_of lead whole sum s }
{
    kept(sum.value * whole, marked(lead.re, sum.terms, s))
}

// The states after the highest order and after the next. The exponentials come first: the sums, whose ends cannot be foreseen, then run beside them.
fn seeds(g: Setting, n: u32, first: Complex, second: Complex) -> Two<Descent>
    requires { 1 < n }
    ensures { result ≡ pair_of g n first second }
{
    let whole = first.exp();
    let other = second.exp();
    let sums = two_sums(
        g.order + f64::from(n - 1),
        g.order + f64::from(n - 2),
        g.half_z_sq,
        g.abs_half_z_sq,
    );
    let higher = entered(first, whole, sums.higher, start());
    let lower = entered(second, other, sums.lower, higher);
    Two { higher, lower }
}

// Two orders at a time, so that a value stays in the registers in which it was worked out.
fn two_by_two(g: Setting, most: usize, settled: Descent, out: &mut Entries) -> Standing
    requires { (most % 2 ≡ 0) × Settled (orders out.old) most settled }
    ensures kept { Kept out.old out.new }
    ensures visit { (result ≡ (walk_from g (orders out.old) most settled (drop (most * 2) out.old.cells.now)).standing)
        × (drop (result.left * 2) out.new.cells.now ≡ (walk_from g (orders out.old) most settled (drop (most * 2) out.old.cells.now)).cells) }
{
    let mut state = settled;
    for pair in (0..most / 2).rev() {
        let k = pair * 2;
        let s = recurred(g, (k + 1) as u32, state);
        out.put(k + 1, s.above);
        state = recurred(g, k as u32, s);
        out.put(k, state.above);
    }
    Standing { left: 0, state }
}

// An odd order goes first, by itself.
fn evened(g: Setting, left: usize, s: Descent, out: &mut Entries) -> Standing
    requires { Settled (orders out.old) left s }
    ensures kept { Kept out.old out.new }
    ensures visit { (result.left % 2 ≡ 0)
        × Settled (orders out.old) result.left result.state
        × (walk_from g (orders out.old) left s (drop (left * 2) out.old.cells.now)
        ≡ walk_from g (orders out.old) result.left result.state (drop (result.left * 2) out.new.cells.now)) }
{
    if left % 2 == 0 {
        return Standing { left, state: s };
    }
    let k = left - 1;
    let state = recurred(g, k as u32, s);
    out.put(k, state.above);
    Standing { left: k, state }
}

fn paired(g: Setting, p: Two<Descent>, out: &mut Entries) -> Standing
    requires { (1 < orders out.old) × Begun g (orders out.old) p }
    ensures kept { Kept out.old out.new }
    ensures visit { (result ≡ (walk_of g (orders out.old)).standing)
        × (drop (result.left * 2) out.new.cells.now ≡ (walk_of g (orders out.old)).cells) }
{
    let higher = p.higher;
    let lower = p.lower;
    let mut left = out.len() - 1;
    out.put(left, higher.above);
    left -= 1;
    out.put(left, lower.above);
    let r = evened(g, left, lower, out);
    two_by_two(g, r.left, r.state, out)
}

// The record of the other way is taken field by field, with `..`: as a whole it would draw the record of this one through memory.
pub fn downward(g: Setting, out: &mut Entries) -> Visit
    ensures kept { Kept out.old out.new }
    ensures visit { (result ≡ (visit_of g (orders out.old)).visit)
        × (out.new.cells.now ≡ (visit_of g (orders out.old)).cells) }
{
    let n = out.len() as u32;
    if n < 2 {
        return Visit { ..stepwise(g, out) };
    }
    let first = leading(g, g.order + f64::from(n - 1));
    let second = leading(g, g.order + f64::from(n - 2));
    if first.re <= -Machine::APPROXIMATION_LIMIT {
        return Visit { ..stepwise(g, out) };
    }
    if second.re <= -Machine::APPROXIMATION_LIMIT {
        return Visit { ..stepwise(g, out) };
    }
    let r = paired(g, seeds(g, n, first, second), out);
    out.concluded(r)
}
