// Why a drive refuses a call. Nothing is changed by a refused call.
#[derive(Clone, Copy, PartialEq, Eq, Debug)]
pub enum DriveRefusal {
    // The drive has no axis of that number.
    NoSuchAxis,
    // The axis is without power.
    PowerOff,
    // The axis does not rest.
    Moving,
    // The position named is farther from 0 than the axis reaches.
    OutOfReach,
}
