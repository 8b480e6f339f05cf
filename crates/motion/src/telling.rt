// Drives that are told of several axes, one after another. What the drive refuses changes nothing.
ghost use Rattle.std.specs.Prelude.{◌≡◌, ℕ, map, length};
ghost use Rattle.drive.specs.Calls.{Told, power_on, power_off, stop, replay};
ghost use Rattle.rules.specs.World.{numbers};
ghost use Rattle.rules.specs.Deeds.{starts};
ghost use Rattle.motion.specs.Orders.{Tells};

use drive::{Drive, DriveRefusal, Profile};

/// Each axis is started to its position.
pub fn start_all<D: Drive>(drive: &mut D, profile: Profile, members: &[u8], positions: &[i32])
    ensures { D.Drive.axes drive.new ≡ replay (starts profile members.now positions.now) (D.Drive.axes drive.old) }
{
    for (axis, position) in members.iter().zip(positions) {
        let _ = drive.start(usize::from(*axis), *position, profile);
    }
}

/// The call is made for each axis, in order.
fn tell_all<D: Drive, F: Fn(&mut D, usize) -> Result<(), DriveRefusal>>(
    drive: &mut D,
    members: &[u8],
    call: F,
)
    requires { F.IsAlwaysCallable call }
    ensures { (told : ℕ → Told) → Tells D.Drive.axes (F.post call) told → D.Drive.axes drive.new ≡ replay (map told members.now) (D.Drive.axes drive.old) }
{
    for axis in members {
        let _ = call(drive, usize::from(*axis));
    }
}

/// The call is made for the axes from 1 to `count`. One function for lists and ranges would be no plainer: each caller of it would have to
/// show which numbers its iterator yields.
#[tactic(auto, using(crate::proofs::Loops::numbers_more))]
fn tell_every<D: Drive, F: Fn(&mut D, usize) -> Result<(), DriveRefusal>>(
    drive: &mut D,
    count: usize,
    call: F,
)
    requires { F.IsAlwaysCallable call }
    ensures { (told : ℕ → Told) → Tells D.Drive.axes (F.post call) told → D.Drive.axes drive.new ≡ replay (map told (numbers count)) (D.Drive.axes drive.old) }
{
    for axis in 1..=count {
        let _ = call(drive, axis);
    }
}

pub fn stop_all<D: Drive>(drive: &mut D, members: &[u8])
    ensures { D.Drive.axes drive.new ≡ replay (map stop members.now) (D.Drive.axes drive.old) }
{
    tell_all(drive, members, D::stop);
}

pub fn power_on_all<D: Drive>(drive: &mut D, members: &[u8])
    ensures { D.Drive.axes drive.new ≡ replay (map power_on members.now) (D.Drive.axes drive.old) }
{
    tell_all(drive, members, D::power_on);
}

pub fn power_off_all<D: Drive>(drive: &mut D, members: &[u8])
    ensures { D.Drive.axes drive.new ≡ replay (map power_off members.now) (D.Drive.axes drive.old) }
{
    tell_all(drive, members, D::power_off);
}

/// The axes from 1 to `count`.
pub fn stop_every<D: Drive>(drive: &mut D, count: usize)
    ensures { D.Drive.axes drive.new ≡ replay (map stop (numbers count)) (D.Drive.axes drive.old) }
{
    tell_every(drive, count, D::stop);
}

/// All axes of the drive.
pub fn power_off_every<D: Drive>(drive: &mut D)
    ensures { D.Drive.axes drive.new ≡ replay (map power_off (numbers (length (D.Drive.axes drive.old)))) (D.Drive.axes drive.old) }
{
    let count = drive.axis_count();
    tell_every(drive, count, D::power_off);
}
