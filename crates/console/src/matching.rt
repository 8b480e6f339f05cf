// Whether a desk and a drive go together. They stay two parameters: callers hold the drive by `&mut`, and a `View` would be made at each call.
ghost use Rattle.std.specs.Prelude.{◌≡◌, ◌&&◌, int_le};
ghost use Rattle.desk.specs.Tables.{row_or};
ghost use Rattle.desk.specs.Axes.{no_axis};
ghost use Rattle.desk.specs.Desks.{model_of};
ghost use Rattle.rules.specs.World.{no_drive_axis};
ghost use Rattle.rules.specs.Calls as C;

use asked::desk_view::{left, right};
use asked::drive_view::{position, reach};
use desk::Desk;
use drive::Drive;

/// Whether neither limit of an axis passes its reach.
fn limits_reach<D: Drive>(desk: &Desk, drive: &D, axis: usize) -> bool
    ensures { result ≡ (C.within_reach (row_or no_drive_axis axis (D.Drive.axes drive.now)) (row_or no_axis axis (model_of desk.now).axes).left && C.within_reach (row_or no_drive_axis axis (D.Drive.axes drive.now)) (row_or no_axis axis (model_of desk.now).axes).right) }
{
    let most = reach(drive, axis);
    left(desk, axis).unsigned_abs() <= most && right(desk, axis).unsigned_abs() <= most
}

/// Whether the position of an axis lies within its limits.
fn is_placed<D: Drive>(desk: &Desk, drive: &D, axis: usize) -> bool
    ensures { result ≡ (int_le (row_or no_axis axis (model_of desk.now).axes).left (row_or no_drive_axis axis (D.Drive.axes drive.now)).position && int_le (row_or no_drive_axis axis (D.Drive.axes drive.now)).position (row_or no_axis axis (model_of desk.now).axes).right) }
{
    let here = position(drive, axis);
    left(desk, axis) <= here && here <= right(desk, axis)
}

/// Whether the desk has as many axes as the drive, and no limit passes its axis's reach.
pub(crate) fn matches<D: Drive>(desk: &Desk, drive: &D) -> bool
    ensures { result ≡ C.matches (model_of desk.now).axes (D.Drive.axes drive.now) }
{
    let count = desk.axis_count();
    count == drive.axis_count() && (1..=count).all(|axis| limits_reach(desk, drive, axis))
}

/// Whether every position lies within its limits.
pub(crate) fn all_placed<D: Drive>(desk: &Desk, drive: &D) -> bool
    ensures { result ≡ C.placed (model_of desk.now).axes (D.Drive.axes drive.now) }
{
    let pairs = desk.axis_count().min(drive.axis_count());
    (1..=pairs).all(|axis| is_placed(desk, drive, axis))
}
