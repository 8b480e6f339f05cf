// Questions to a drive about several axes.
ghost use Rattle.std.specs.Prelude.{◌≡◌};
ghost use Rattle.std.specs.List.{list_all};
ghost use Rattle.drive.specs.Model.{at_rest};
ghost use Rattle.desk.specs.Tables.{row_or};
ghost use Rattle.rules.specs.World.{no_drive_axis, numbers};

use asked::drive_view::{powered, rests};
use drive::Drive;

pub fn all_rest<D: Drive>(drive: &D, members: &[u8]) -> bool
    ensures { result ≡ list_all (λ n. at_rest (row_or no_drive_axis n (D.Drive.axes drive.now))) members.now }
{
    members.iter().all(|axis| rests(drive, usize::from(*axis)))
}

pub fn all_powered<D: Drive>(drive: &D, members: &[u8]) -> bool
    ensures { result ≡ list_all (λ n. (row_or no_drive_axis n (D.Drive.axes drive.now)).powered) members.now }
{
    members
        .iter()
        .all(|axis| powered(drive, usize::from(*axis)))
}

/// The axes from 1 to `count`.
pub fn every_rests<D: Drive>(drive: &D, count: usize) -> bool
    ensures { result ≡ list_all (λ n. at_rest (row_or no_drive_axis n (D.Drive.axes drive.now))) (numbers count) }
{
    (1..=count).all(|axis| rests(drive, axis))
}
