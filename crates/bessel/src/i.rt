// The entry point of I: n consecutive orders from v up at z = re + im·i, plain or times e^-re, into the lent cells, re before im.
// From src/amos/right_half_plane.rs, i_right_half_plane (ZBINU), its power series path alone; DLMF 10.25.2.
// Promised for every input: i_outcome of specs/I.antt, the answer and every cell.
ghost use Rattle.std.specs.Prelude.{◌≡◌, length};
ghost use Rattle.bessel.specs.I.{i_outcome};

use crate::series::series_call;
use call::answer::Answer;

#[tactic(auto, unfolding(crate::specs::I::i_outcome))]
pub fn i(scaled: bool, v: f64, re: f64, im: f64, out: &mut [f64]) -> Answer
    ensures { (result ≡ (i_outcome scaled v re im (length out.old)).answer)
        × (out.new ≡ (i_outcome scaled v re im (length out.old)).cells) }
{
    series_call(scaled, false, v, re, im, out)
}
