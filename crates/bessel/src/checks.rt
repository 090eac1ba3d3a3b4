// Whether a call is admitted: the checks that look at its arguments and at the buffer's length alone, in their order.
// From docs/SCOPE.md, Domain and refusals. Promised: the verdict of the lists of specs/Checks.antt, which are the order's one home.
ghost use Rattle.std.specs.Prelude.{◌≡◌, ◌<◌};
ghost use Rattle.power_series.specs.Series.{beyond_series};
ghost use Rattle.call.specs.Checks.{verdict_of};
ghost use Rattle.bessel.specs.Checks.{argument_checks, k_checks, series_checks};

use crate::arguments::Arguments;
use call::checks::{finite_checked, length_checked, limits_checked, refused_if};
use call::limits::is_zero;
use refusal::refusal::Refusal;

// as i_right_half_plane of src/amos/right_half_plane.rs (ZBINU) tests for the power series
fn beyond_series(a: Arguments, n: u32) -> bool
    requires { 0 < n }
    ensures { result ≡ beyond_series a.order n a.modulus }
{
    let largest_order = a.order + f64::from(n - 1);
    a.modulus * a.modulus * 0.25 > largest_order + 1.0
}

fn argument_verdict(a: Arguments, length: usize) -> Result<(), Refusal>
    ensures { result ≡ verdict_of (argument_checks a length) }
{
    let z = a.z;
    length_checked(length)?;
    finite_checked(a.order, z.re, z.im)?;
    limits_checked(a.order, z.re, z.im)
}

pub fn k_verdict(a: Arguments, length: usize) -> Result<(), Refusal>
    ensures { result ≡ verdict_of (k_checks a length) }
{
    let z = a.z;
    argument_verdict(a, length)?;
    refused_if(is_zero(z.re, z.im), Refusal::Zero)
}

// How many orders are asked for is known of an admitted length alone.
pub fn series_verdict(a: Arguments, length: usize) -> Result<(), Refusal>
    ensures { result ≡ verdict_of (series_checks a length) }
{
    argument_verdict(a, length)?;
    refused_if(beyond_series(a, (length / 2) as u32), Refusal::Series)
}
