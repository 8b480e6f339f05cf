ghost use Rattle.std.specs.Prelude.{◌≡◌};
ghost use Rattle.drives.specs.Visits.{visited};

use crate::account::Visit;
use drive::{Drive, DriveRefusal, Profile, settle};

// Starts an axis to a target and ticks until it rests, `limit` times at most.
pub fn visit<D: Drive>(
    drive: &mut D,
    axis: usize,
    target: i32,
    profile: Profile,
    limit: u32,
) -> Result<Visit, DriveRefusal>
    ensures { (result, D.Drive.axes drive.new) ≡ visited axis target profile limit (D.Drive.axes drive.old) }
{
    let from = drive.position(axis)?;
    drive.start(axis, target, profile)?;
    let ticks = settle(drive, axis, limit)?;
    let position = drive.position(axis)?;
    Ok(Visit {
        from,
        position,
        ticks,
        way: position.abs_diff(from),
    })
}
