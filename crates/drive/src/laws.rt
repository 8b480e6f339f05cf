ghost use Rattle.drive.specs.Calls.{Lasting};

use crate::drive::Drive;

// Nothing to run: what its contract says holds of every drive, whatever calls follow.
pub fn lasting<D: Drive>(drive: &D)
    ensures { Lasting (D.Drive.axes drive.now) }
{}
