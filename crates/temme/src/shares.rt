// The reciprocals that a term k of Temme's sum takes: of k, of k² - ν², of k - ν and of k + ν. At the fraction ν = 0 they are two, and to
// the term 18, the last that |z| to 2 asks for, a whole number's are tabled: divisions are most of what a term costs. Promised:
// specs/shapes/Shares.antt.
ghost use Rattle.std.specs.Prelude.{◌≡◌, ◌≤◌};
ghost use Rattle.temme.specs.shapes.Shares.{is_whole, share_of, square_share_of, whole_shares_of, shares_of};

#[derive(Clone, Copy)]
pub struct Reciprocals {
    pub of_k: f64,
    pub of_denominator: f64,
    pub of_lower: f64,
    pub of_upper: f64,
}

fn is_whole(fraction: f64, fraction_square: f64) -> bool
    ensures { result ≡ is_whole fraction fraction_square }
{
    fraction == 0.0 && fraction_square == 0.0
}

// As arrays, `if terms <= 18 { return SHARES[terms as usize]; }`, the two prove the same; but Miller's backward loop, which the compiler puts into the same
// function, then takes 83 instructions for two steps on x86-64, where tools/objects/loops.py allows 82 and the two matches leave it at 82.
// `terms as f64` and not `f64::from(terms)`, here and in sum.rt: the two are one cast, and the second leaves the goal `returns` open.
fn share(terms: u32) -> f64
    ensures { result ≡ share_of terms }
{
    match terms {
        1 => 1.0,
        2 => 0.5,
        3 => 0.3333333333333333,
        4 => 0.25,
        5 => 0.2,
        6 => 0.16666666666666666,
        7 => 0.14285714285714285,
        8 => 0.125,
        9 => 0.1111111111111111,
        10 => 0.1,
        11 => 0.09090909090909091,
        12 => 0.08333333333333333,
        13 => 0.07692307692307693,
        14 => 0.07142857142857142,
        15 => 0.06666666666666667,
        16 => 0.0625,
        17 => 0.058823529411764705,
        18 => 0.05555555555555555,
        _ => 1.0 / (terms as f64),
    }
}

fn square_share(terms: u32) -> f64
    ensures { result ≡ square_share_of terms }
{
    match terms {
        1 => 1.0,
        2 => 0.25,
        3 => 0.1111111111111111,
        4 => 0.0625,
        5 => 0.04,
        6 => 0.027777777777777776,
        7 => 0.02040816326530612,
        8 => 0.015625,
        9 => 0.012345679012345678,
        10 => 0.01,
        11 => 0.008264462809917356,
        12 => 0.006944444444444444,
        13 => 0.005917159763313609,
        14 => 0.00510204081632653,
        15 => 0.0044444444444444444,
        16 => 0.00390625,
        17 => 0.0034602076124567475,
        18 => 0.0030864197530864196,
        _ => 1.0 / ((terms as f64) * (terms as f64)),
    }
}

fn whole_shares(terms: u32) -> Reciprocals
    ensures { result ≡ whole_shares_of terms }
{
    let of_k = share(terms);
    Reciprocals {
        of_k,
        of_denominator: square_share(terms),
        of_lower: of_k,
        of_upper: of_k,
    }
}

pub fn shares(fraction: f64, fraction_square: f64, terms: u32) -> Reciprocals
    requires { terms ≤ 999 }
    ensures { result ≡ shares_of fraction fraction_square terms }
{
    if is_whole(fraction, fraction_square) {
        return whole_shares(terms);
    }
    let k = terms as f64;
    let recip_neg = 1.0 / (k - fraction);
    Reciprocals {
        of_k: share(terms),
        of_denominator: 1.0 / (k * k - fraction_square),
        of_lower: recip_neg,
        of_upper: 1.0 / (k + fraction),
    }
}
