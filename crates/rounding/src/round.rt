// The whole number nearest to x, a half away from zero: round(2.5) = 3, round(-0.3) = -0. Own design, on the bits.
// Promised for every f64: the definition in specs/Round.antt, the whole part of |x| + 1/2 with the sign of x. Exact.
ghost use Rattle.std.specs.Prelude.{◌≡◌, ◌≤◌, ◌<◌, ◌^◌};
ghost use Rattle.laws.proofs.Bits.{field_units};
ghost use Rattle.rounding.specs.Round.{round_of, nearest_whole};

use machine::constants::not_a_number;

pub fn round(x: f64) -> f64
    ensures { result ≡ round_of x }
{
    if x != x {
        return not_a_number();
    }
    let bits = f64::to_bits(x);
    let size = bits % 0x8000000000000000;
    let field = size / 0x10000000000000;
    // from 2^52 on there is no fraction
    if field > 1074 {
        return x;
    }
    let whole = nearest_whole(field, size % 0x10000000000000) as f64;
    if bits < 0x8000000000000000 {
        whole
    } else {
        -whole
    }
}

// With the leading digit put back, the number is its digits times 2^(field - 1075), so a shift by one less leaves the whole part
// of its double. Adding 1/2 to the number itself would round: 0.49999999999999994 must give 0.
fn nearest_whole(field: u64, fraction: u64) -> u64
    requires { (field ≤ 1074) × (fraction < 2 ^ 52) }
    ensures { (result ≡ nearest_whole (field_units field fraction) (2 ^ 1074)) × (result ≤ 2 ^ 53) }
{
    if field < 1022 {
        return 0;
    }
    let doubled = (0x10000000000000 + fraction) >> (1074 - field);
    (doubled + 1) / 2
}
