// What the rungs of a stretch share, and the next order's value where the state of scale stays: for the loops of the climb and of the fill.
// From src/amos/recurrence.rs, run_recurrence_core. Where the state stays, four rungs are climbed a turn, so that pairs of values take turns and none
// is copied. Promised: held_of of specs/shapes/Held.antt. The real part is tested before the imaginary part is formed, and the real part of the factor
// is formed by the caller, one rung ahead: so the compiler pairs neither, which would put shuffles between one rung and the next.
ghost use Rattle.std.specs.Prelude.{◌≡◌};
ghost use Rattle.recurrence.specs.Rung.{factor_of, next_of};
ghost use Rattle.recurrence.specs.shapes.Course.{Suits};
ghost use Rattle.recurrence.specs.shapes.Held.{held_of};

use crate::rung::Ladder;
use complex::number::Complex;
use machine::magnitude::outside;

// the ladder that is climbed, and the limit of the state
#[derive(Clone, Copy)]
pub struct Course {
    pub ladder: Ladder,
    pub most: f64,
}

impl Course {
    // The value at the index i, where the state stays at it; p is the factor's real part. Here and in rung.rt `i as f64` is the conversion that factor_of
    // names; `f64::from(i)` is the same one behind a call, and the factor then equals factor_of by that call's promise alone: longer, here and in each proof.
    pub fn next_held(self, p: f64, i: u32, older: Complex, newer: Complex) -> Option<Complex>
        requires { Suits self p i }
        ensures { result ≡ held_of self.most (next_of (factor_of self.ladder.two_over_z self.ladder.base_order i) older newer) }
    {
        let turn = self.ladder.two_over_z.im * (self.ladder.base_order + (i as f64));
        let re = older.re + (p * newer.re - turn * newer.im);
        if outside(self.most, re) {
            return None;
        }
        let im = older.im + (p * newer.im + turn * newer.re);
        if outside(self.most, im) {
            return None;
        }
        Some(Complex { re, im })
    }
}
