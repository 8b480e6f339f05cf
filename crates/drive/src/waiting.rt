ghost use Rattle.std.specs.Prelude.{◌≡◌};
ghost use Rattle.drive.specs.Settle.{Arrives, rests, same_answers, settled};

use crate::drive::Drive;
use crate::refusal::DriveRefusal;

// Whether two answers name one position, unless one of them is a refusal.
fn same_position(
    position: Result<i32, DriveRefusal>,
    target: Result<i32, DriveRefusal>,
) -> Result<bool, DriveRefusal>
    ensures { result ≡ same_answers position target }
{
    Ok(position? == target?)
}

// Whether an axis rests: its position is its target.
pub fn at_rest<D: Drive>(drive: &D, axis: usize) -> Result<bool, DriveRefusal>
    ensures { result ≡ rests axis (D.Drive.axes drive.now) }
{
    same_position(drive.position(axis), drive.target(axis))
}

// Ticks until the axis rests, `limit` times at most, and answers how many ticks were made.
pub fn settle<D: Drive>(drive: &mut D, axis: usize, limit: u32) -> Result<u32, DriveRefusal>
    ensures value { (result, D.Drive.axes drive.new) ≡ settled axis limit (D.Drive.axes drive.old) }
    ensures arrives { Arrives axis limit (D.Drive.axes drive.old) result (D.Drive.axes drive.new) }
{
    for ticks in 0..limit {
        if at_rest(drive, axis)? {
            return Ok(ticks);
        }
        drive.tick();
    }
    at_rest(drive, axis)?;
    Ok(limit)
}
