ghost use Rattle.std.specs.Prelude.{◌≡◌};
ghost use Rattle.queue.specs.Waypoints.{positions_of, shown, waypoint_from};

use crate::waypoint::Waypoint;
use fixed::FixedList;

impl Waypoint {
    // None for more than 12 positions.
    pub fn new(positions: &[i32]) -> Option<Waypoint>
        ensures { shown result ≡ waypoint_from positions.now }
    {
        let list = FixedList::from_slice(positions, 0)?;
        Some(Waypoint { list })
    }

    pub fn positions(&self) -> &[i32]
        ensures { result.now ≡ positions_of self.now }
    {
        self.list.as_slice()
    }
}
