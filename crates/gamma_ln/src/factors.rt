// The product z (z+1) .. (z+n-1), by which a shift up by n is undone: its ln is log-gamma at z+n less log-gamma at z, DLMF 5.5.1.
// From src/amos/gamma_ln.rs (DGAMLN). Promised: specs/Factors.antt, a rounding for each sum and each product, in this order.
ghost use Rattle.std.specs.Prelude.{◌≡◌};
ghost use Rattle.gamma_ln.specs.Factors.{factors_of};

// A product under way, and how many factors are in it.
#[derive(Clone, Copy)]
pub struct Multiplied {
    pub product: f64,
    pub count: u32,
}

pub fn factors(z: f64, wanted: u32) -> Multiplied
    ensures { result ≡ factors_of z wanted }
{
    let mut product = 1.0;
    for count in 0..wanted {
        product *= z + f64::from(count);
    }
    Multiplied {
        product,
        count: wanted,
    }
}
