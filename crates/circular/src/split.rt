// A finite value taken apart for its sine: the value without its sign, and the quarter turns that the sign is worth.
// Promised: split_of for every x, which is nothing where x is an infinity or no number.
ghost use Rattle.std.specs.Prelude.{◌≡◌};
ghost use Rattle.circular.specs.Split.{split_of};

use machine::bits::{of_pattern, pattern};

#[derive(Clone, Copy)]
pub struct Split {
    pub size: f64,
    // a minus sign is half a turn
    pub turns: u64,
}

// sin, cos, sin_pi and cos_pi share this test and its not-a-number, no more: `after(x, |parts| { let angle = reduce(parts.size);
// sine_at(angle, angle.quarter + parts.turns) })` would keep every other line in the closure, and take a clause on closures besides.
pub fn parted(x: f64) -> Option<Split>
    ensures { result ≡ split_of x }
{
    if x != x {
        return None;
    }
    let bits = pattern(x);
    let size = bits % 0x8000000000000000;
    if size >= 0x7FF0000000000000 {
        return None;
    }
    Some(Split {
        size: of_pattern(size),
        turns: bits / 0x8000000000000000 * 2,
    })
}
