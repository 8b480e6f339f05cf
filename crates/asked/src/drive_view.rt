// How an axis of the drive stands. Where the drive has no such axis, what stands for it rests at 0 without power and has reach 0.
ghost use Rattle.std.specs.Prelude.{◌≡◌};
ghost use Rattle.drive.specs.Model.{at_rest};
ghost use Rattle.desk.specs.Tables.{row_or};
ghost use Rattle.rules.specs.World.{no_drive_axis};

use drive::Drive;

#[tactic(auto, using(crate::proofs::Stands::asked_row))]
pub fn position<D: Drive>(drive: &D, axis: usize) -> i32
    ensures { result ≡ (row_or no_drive_axis axis (D.Drive.axes drive.now)).position }
{
    drive.position(axis).unwrap_or(0)
}

#[tactic(auto, using(crate::proofs::Stands::asked_row))]
pub fn target<D: Drive>(drive: &D, axis: usize) -> i32
    ensures { result ≡ (row_or no_drive_axis axis (D.Drive.axes drive.now)).target }
{
    drive.target(axis).unwrap_or(0)
}

#[tactic(auto, using(crate::proofs::Stands::asked_row))]
pub fn reach<D: Drive>(drive: &D, axis: usize) -> u32
    ensures { result ≡ (row_or no_drive_axis axis (D.Drive.axes drive.now)).reach }
{
    drive.reach(axis).unwrap_or(0)
}

#[tactic(auto, using(crate::proofs::Stands::asked_row))]
pub fn powered<D: Drive>(drive: &D, axis: usize) -> bool
    ensures { result ≡ (row_or no_drive_axis axis (D.Drive.axes drive.now)).powered }
{
    drive.powered(axis).unwrap_or(false)
}

/// Position and target are the same.
pub fn rests<D: Drive>(drive: &D, axis: usize) -> bool
    ensures { result ≡ at_rest (row_or no_drive_axis axis (D.Drive.axes drive.now)) }
{
    position(drive, axis) == target(drive, axis)
}
