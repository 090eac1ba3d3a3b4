// Arguments below the underflow limit: the series is its leading term, which is 1 at order 0 and underflows at any other.
// From src/amos/power_series.rs, i_power_series (ZSERI, from 150 to 180). Promised: tiny_of of specs/Tiny.antt, record and cells.
ghost use Rattle.std.specs.Prelude.{◌≡◌, ◌<◌};
ghost use Rattle.power_series.specs.Entries.{orders, Kept};
ghost use Rattle.power_series.specs.Tiny.{lowest_of, zeros_of, tiny_of};

use crate::entries::Entries;
use crate::visit::Visit;
use cells::fill::fill;

fn lowest(order: f64) -> f64
    ensures { result ≡ lowest_of order }
{
    if order == 0.0 {
        return 1.0;
    }
    0.0
}

// at z = 0 the zeros are the values, and none is counted
fn zeros(order: f64, modulus: f64, n: u32) -> u32
    requires { 0 < n }
    ensures { result ≡ zeros_of order modulus n }
{
    if modulus == 0.0 {
        return 0;
    }
    if order == 0.0 {
        return n - 1;
    }
    n
}

pub fn tiny(order: f64, modulus: f64, out: &mut Entries) -> Visit
    requires { 0 < orders out.old }
    ensures kept { Kept out.old out.new }
    ensures visit { (result ≡ (tiny_of order modulus (orders out.old)).visit)
        × (out.new.cells.now ≡ (tiny_of order modulus (orders out.old)).cells) }
{
    let n = out.len();
    fill(out.cells, 0.0);
    out.cells[0] = lowest(order);
    Visit {
        zeros: zeros(order, modulus, n as u32),
        stopped: false,
        place: 0,
        longest_sum: 0,
        rungs: 0,
    }
}
