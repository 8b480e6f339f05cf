use crate::entry::Entry;
use fixed::FixedList;

// A position in micro-units for each member of a group, in the members' order.
#[derive(Clone, Copy)]
pub struct Waypoint {
    pub(crate) list: FixedList<i32, 12>,
}

impl Waypoint {
    // The greatest number that may wait.
    pub const MOST: usize = <Waypoint as Entry>::MOST;
}

impl Entry for Waypoint {
    const MOST: usize = 8;

    ghost most = { 8 };

    fn limit() -> usize {
        Self::MOST
    }
}
