// Whether every cell from an index on is finite. Promised: all_finite of specs/AllFinite.antt on what is left of the buffer there.
// A product that begins with a zero stays a zero while its factors are finite, and is no number from the first other one on. Eight such products
// go side by side, so that none waits for another, and one comparison at the end is for all cells. The compiler packs neighbours, two and two; so
// every second product is joined with its like.
ghost use Rattle.std.specs.Prelude.{◌≡◌, ◌*◌, ◌/◌, ◌&&◌, length, drop};
ghost use Rattle.std.specs.Float.Ieee.Scale.{finite};
ghost use Rattle.std.specs.Simd.{first_chunks};
ghost use Rattle.cells.specs.AllFinite.{all_finite};
ghost use Rattle.cells.specs.shapes.Nought.{Nought};

// whether a product that is a zero or no number stays a zero, one cell after the other
fn stays_zero(cells: &[f64], start: f64) -> bool
    requires { Nought start }
    ensures { result ≡ (finite start && all_finite cells.now) }
{
    let mut z = start;
    for &x in cells {
        z = z * x;
    }
    z == 0.0
}

// the cells by eights, and what is left of them
fn eights(cells: &[f64]) -> (&[[f64; 8]], &[f64])
    ensures front { result.0.now ≡ first_chunks 8 (length cells.now / 8) cells.now }
    ensures count { length result.0.now ≡ length cells.now / 8 }
    ensures back { result.1.now ≡ drop (length cells.now / 8 * 8) cells.now }
{
    cells.as_chunks::<8>()
}

pub fn all_finite(cells: &[f64], from: usize) -> bool
    ensures { result ≡ all_finite (drop from cells.now) }
{
    if cells.len() < from {
        return true;
    }
    // as an array: `for i in 0..8 { z[i] = z[i] * x[i]; }`, two loops in a function (CONTRIBUTING.md has one), with the last product no shorter
    let mut a = 0.0;
    let mut b = 0.0;
    let mut c = 0.0;
    let mut d = 0.0;
    let mut e = 0.0;
    let mut f = 0.0;
    let mut g = 0.0;
    let mut h = 0.0;
    let (chunks, left) = eights(&cells[from..]);
    for x in chunks {
        a = a * x[0];
        b = b * x[1];
        c = c * x[2];
        d = d * x[3];
        e = e * x[4];
        f = f * x[5];
        g = g * x[6];
        h = h * x[7];
    }
    stays_zero(left, ((a * c) * (e * g)) * ((b * d) * (f * h)))
}
