// Commands that start one axis. What the drive refuses changes nothing.
ghost use Rattle.std.specs.Prelude.{◌≡◌, ◌+ℤ◌};
ghost use Rattle.drive.specs.Calls.{start, done};
ghost use Rattle.rules.specs.World.{core_of, settings, axis_at};
ghost use Rattle.actions.specs.Narrow.{as_position};

use crate::narrowing::moved_by;
use asked::desk_view::own;
use asked::drive_view::target;
use desk::Desk;
use drive::Drive;

/// The axis is started to a position, with its own profile.
pub(crate) fn move_to<D: Drive>(desk: &Desk, drive: &mut D, axis: usize, position: i32)
    ensures { D.Drive.axes drive.new ≡ done (start axis position (settings (core_of desk.now (D.Drive.axes drive.old)) axis).own) (D.Drive.axes drive.old) }
{
    let _ = drive.start(axis, position, own(desk, axis));
}

/// The same, to what lies so far from its target.
pub(crate) fn move_by<D: Drive>(desk: &Desk, drive: &mut D, axis: usize, value: i64)
    ensures { D.Drive.axes drive.new ≡ done (start axis (as_position ((axis_at (core_of desk.now (D.Drive.axes drive.old)) axis).target +ℤ value)) (settings (core_of desk.now (D.Drive.axes drive.old)) axis).own) (D.Drive.axes drive.old) }
{
    let aim = moved_by(target(drive, axis), value);
    let _ = drive.start(axis, aim, own(desk, axis));
}
