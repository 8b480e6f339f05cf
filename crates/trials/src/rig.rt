ghost use Rattle.std.specs.Prelude.{◌≡◌, MatchOption, ◌≢◌};
ghost use Rattle.bank.specs.Banks.{bank_axes};
ghost use Rattle.drive.specs.Mirror.{mirrored};
ghost use Rattle.trials.specs.Rigs.{rig_axes};

use bank::Bank;
use drive::Reversed;

/// A drive that is mounted reversed at two axes at most.
// Axis 0, which no drive has, stands for none: an enum of mountings would be a drive of its own, with each call and law
// passed on, and no shorter.
pub type Rig = Reversed<Reversed<Bank>>;

/// The drive, reversed nowhere.
pub fn mounted(bank: Bank) -> Rig
    ensures { rig_axes result ≡ bank_axes bank }
{
    Reversed::new(Reversed::new(bank, 0), 0)
}

/// The rig, reversed at one axis more. None where it is reversed at two already.
pub fn reversed(rig: Rig, axis: usize) -> Option<Rig>
    ensures { MatchOption result (rig.axis ≢ 0) (λ s. rig_axes s ≡ mirrored axis (rig_axes rig)) }
{
    if rig.axis != 0 {
        return None;
    }
    if rig.below.axis != 0 {
        return Some(Reversed::new(rig.below, axis));
    }
    Some(Reversed::new(Reversed::new(rig.below.below, axis), 0))
}
