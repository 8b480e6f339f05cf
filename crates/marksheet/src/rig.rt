ghost use Rattle.std.specs.Prelude.{◌≡◌, slice_index};
ghost use Rattle.bank.specs.Banks.{bank_axes};
ghost use Rattle.drive.specs.Mirror.{mirrored};
ghost use Rattle.marksheet.specs.Rigs.{chosen_axes, rig_axes};

use crate::drive_choice::DriveChoice;
use bank::Bank;
use drive::Reversed;
use stage::Ease;

/// A drive that is mounted reversed at three axes at most.
// Axis 0, which no drive has, stands for none: an enum of mountings would be a drive of its own, with each call and law
// passed on, and `Reversed` at an axis that is not there is the drive below as it is. The trials' rig is of another type,
// two mountings deep, and is made one mounting at a time.
pub type Rig = Reversed<Reversed<Reversed<Bank>>>;

/// The reach of every axis, in micro-units.
const REACH: u32 = 2_000_000_000;

fn bank(choice: DriveChoice, count: usize) -> Bank
    ensures { bank_axes result ≡ chosen_axes choice count }
{
    match choice {
        DriveChoice::Instant => Bank::instant(count, REACH),
        DriveChoice::Stepping => Bank::stepping(count, REACH),
        DriveChoice::Stride(n) => Bank::easing(count, REACH, Ease::Stride(f64::from(n))),
        DriveChoice::Share(part) => Bank::easing(count, REACH, Ease::Share(part)),
    }
}

/// The axis in a place of a list, and 0 where the list has none there.
fn axis_at(reversed: &[usize], place: usize) -> usize
    ensures { result ≡ slice_index reversed.now place }
{
    reversed.get(place).copied().unwrap_or(0)
}

/// The drive that is chosen, with so many axes, reversed at the first three axes named.
pub fn rig_of(choice: DriveChoice, count: usize, reversed: &[usize]) -> Rig
    ensures { rig_axes result ≡ mirrored (slice_index reversed.now 2) (mirrored (slice_index reversed.now 1) (mirrored (slice_index reversed.now 0) (chosen_axes choice count))) }
{
    let once = Reversed::new(bank(choice, count), axis_at(reversed, 0));
    let twice = Reversed::new(once, axis_at(reversed, 1));
    Reversed::new(twice, axis_at(reversed, 2))
}
