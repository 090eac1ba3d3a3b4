// The limits of a call's arguments, each by itself: what a buffer's length, an order and the parts of an argument may be.
// From docs/SCOPE.md, Domain and refusals. Promised: each is its definition in specs/Limits.antt, for every value; the order and the parts go one by one
// into each, as they do there (are_finite v re im, size_inside re im).
ghost use Rattle.std.specs.Prelude.{◌≡◌};
ghost use Rattle.call.specs.Limits.{normalised_of, length_inside, are_finite, order_inside, sign_inside, part_inside, size_inside, is_zero};

use machine::finite::is_finite;

pub const LARGEST_ORDER: f64 = 1000.0;

pub const LARGEST_PART: f64 = 32768.0;

pub const LARGEST_COUNT: usize = 512;

pub const LONGEST_BUFFER: usize = 1024;

// -0 is made +0
#[tactic(auto, unfolding(crate::specs::Limits::normalised_of))]
pub fn normalised(x: f64) -> f64
    ensures { result ≡ normalised_of x }
{
    if x == 0.0 { 0.0 } else { x }
}

#[tactic(auto, unfolding(crate::specs::Limits::length_inside))]
pub fn length_inside(length: usize) -> bool
    ensures { result ≡ length_inside length }
{
    length > 0 && length <= LONGEST_BUFFER && length % 2 == 0
}

#[tactic(auto, unfolding(crate::specs::Limits::are_finite))]
pub fn are_finite(v: f64, re: f64, im: f64) -> bool
    ensures { result ≡ are_finite v re im }
{
    is_finite(v) && is_finite(re) && is_finite(im)
}

#[tactic(auto, unfolding(crate::specs::Limits::order_inside))]
pub fn order_inside(v: f64) -> bool
    ensures { result ≡ order_inside v }
{
    v >= 0.0 && v <= LARGEST_ORDER
}

#[tactic(auto, unfolding(crate::specs::Limits::sign_inside))]
pub fn sign_inside(re: f64) -> bool
    ensures { result ≡ sign_inside re }
{
    re >= 0.0
}

#[tactic(auto, unfolding(crate::specs::Limits::part_inside))]
fn part_inside(x: f64) -> bool
    ensures { result ≡ part_inside x }
{
    x >= -LARGEST_PART && x <= LARGEST_PART
}

#[tactic(auto, unfolding(crate::specs::Limits::size_inside))]
pub fn size_inside(re: f64, im: f64) -> bool
    ensures { result ≡ size_inside re im }
{
    part_inside(re) && part_inside(im)
}

#[tactic(auto, unfolding(crate::specs::Limits::is_zero))]
pub fn is_zero(re: f64, im: f64) -> bool
    ensures { result ≡ is_zero re im }
{
    re == 0.0 && im == 0.0
}
