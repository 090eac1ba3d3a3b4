// First orders on scale: where the values stand without e^-z, the first orders are tried one after the other, and those before two neighbours
// on scale are zeros. From src/amos/recurrence.rs, scale_k_recurrence (ZKSCL), which writes them; here they are returned.
// Promised: first_orders of specs/First.antt; the zeros are at most the orders asked for (proofs/FirstFacts.antt).
ghost use Rattle.std.specs.Prelude.{◌≡◌, ◌<◌, ◌^◌};
ghost use Rattle.recurrence.specs.First.{start_of, ended_of, settled_of, first_orders};

use crate::search::{Rule, Search, search_at, search_from};
use crate::trial::first_trial;
use complex::number::Complex;

// How many orders are zero, the two after them, raised by 2^52 (zero where there are none), and the rungs climbed.
#[derive(Clone, Copy)]
pub struct FirstOrders {
    pub zeros: u32,
    pub first: Complex,
    pub second: Complex,
    pub rungs: u32,
}

// The orders come as a plain number, here and in `settled` and `first_orders`: ended_of, settled_of and first_orders of specs/First.antt, and the theorem
// first_counted, have it so and for 0 too. So `0 < n` is a clause of each of the three.
fn ended(n: u32, t: Option<Complex>, rungs: u32) -> FirstOrders
    requires { 0 < n }
    ensures { result ≡ ended_of n t rungs }
{
    match t {
        Some(first) => FirstOrders {
            zeros: n - 1,
            first,
            second: Complex::ZERO,
            rungs,
        },
        None => FirstOrders {
            zeros: n,
            first: Complex::ZERO,
            second: Complex::ZERO,
            rungs,
        },
    }
}

fn settled(n: u32, s: Search) -> FirstOrders
    requires { 0 < n }
    ensures { result ≡ settled_of n s }
{
    let Some(first) = s.before else {
        return ended(n, s.latest, s.rungs);
    };
    let Some(second) = s.latest else {
        return ended(n, s.latest, s.rungs);
    };
    FirstOrders {
        zeros: s.rungs,
        first,
        second,
        rungs: s.rungs,
    }
}

// Of n orders from `order` on, the first two values being given, without e to minus the argument: of z itself, or as a search has lowered it.
pub fn first_orders(
    argument: Complex,
    order: f64,
    n: u32,
    first: Complex,
    second: Complex,
    two_over_z: Complex,
) -> FirstOrders
    requires { (0 < n) × (n < 2 ^ 31) }
    ensures { result ≡ first_orders argument order n first second two_over_z }
{
    let before = first_trial(argument, first);
    if n < 2 {
        return ended(n, before, 0);
    }
    let latest = first_trial(argument, second);
    let start = search_at(argument, first, second, before, latest);
    settled(
        n,
        search_from(Rule::FirstOrders, order, two_over_z, n - 2, start),
    )
}
