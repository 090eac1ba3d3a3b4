// What a stretch has put into the cells as its state keeps it comes off the scale: for the loop of the fill, which so multiplies nothing in the middle
// state. Promised: off_scale of specs/shapes/Stretch.antt, of all cells of the lent part.
ghost use Rattle.std.specs.Prelude.{◌≡◌};
ghost use Rattle.recurrence.specs.shapes.Stretch.{products_of, off_scale};

use crate::state::OverflowState;

fn multiply(part: &mut [f64], by: f64)
    ensures { part.new ≡ products_of by part.old }
{
    for x in part.iter_mut() {
        *x *= by;
    }
}

pub fn take_off(state: OverflowState, part: &mut [f64])
    ensures { part.new ≡ off_scale state part.old }
{
    match state {
        OverflowState::NearUnder => multiply(part, state.reciprocal()),
        OverflowState::None => {}
        OverflowState::NearOver => multiply(part, state.reciprocal()),
    }
}
