// The ground of an admitted call: one order at least and 512 at most, the nearest whole number of the first at most 1,000. Who makes one shows that; who
// takes one knows it.
// It is no fact of Ground: the theorems start-exactly and climb-exactly are about the ground of any count, ground_of of specs/Ground.antt.
ghost use Rattle.right_half_plane.specs.Ground.{Sized};

use crate::ground::Ground;

#[derive(Clone, Copy)]
pub struct Admitted {
    pub prepared: Ground,
    pub ghost sized: { Sized prepared },
}
