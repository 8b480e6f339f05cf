// Settings fit 32 bits, as their types say. These functions state it for all that is set, and have nothing else to do. An empty body does
// not do: a proof knows that a field fits its type only where code reads it.
ghost use Rattle.std.specs.Prelude.{ℕ};
ghost use Rattle.desk.specs.Tables.{row_or};
ghost use Rattle.desk.specs.Axes.{no_axis};
ghost use Rattle.desk.specs.Desks.{model_of};
ghost use Rattle.actions.specs.Fits.{Wide};

use asked::desk_view::{left, max_acceleration, max_velocity, right};
use desk::Desk;

fn axis_fits(desk: &Desk, axis: usize)
    ensures { Wide (row_or no_axis axis (model_of desk.now).axes) }
{
    let _ = max_velocity(desk, axis);
    let _ = max_acceleration(desk, axis);
    let _ = left(desk, axis);
    let _ = right(desk, axis);
}

pub(crate) fn settings_fit(desk: &Desk)
    ensures { (n : ℕ) → Wide (row_or no_axis n (model_of desk.now).axes) }
{
    for axis in 1..=desk.axis_count() {
        axis_fits(desk, axis);
    }
}
