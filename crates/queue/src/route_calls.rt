ghost use Rattle.std.specs.Prelude.{◌≡◌, [], length, drop};
ghost use Rattle.queue.specs.Queue.{added};
ghost use Rattle.queue.specs.Waypoints.{positions_of, waypoints, shown};
ghost use Rattle.std.specs.List.{slice_get};

use crate::route::Route;
use crate::slots;
use crate::waypoint::Waypoint;
use fixed::FixedList;

impl Route {
    // No `Default` beside it: nothing generic makes one.
    pub fn new() -> Route
        ensures { waypoints result ≡ [] }
    {
        let unused = Waypoint {
            list: FixedList::empty(0),
        };
        Route {
            slots: [unused; 8],
            len: 0,
        }
    }

    // Puts a waypoint behind the others; refused where eight wait.
    pub fn add(&mut self, w: Waypoint) -> bool
        ensures { (result, waypoints self.new) ≡ added 8 (waypoints self.old) (positions_of w) }
    {
        slots::add(&mut self.slots, &mut self.len, w)
    }

    // Takes the first out.
    pub fn take(&mut self) -> Option<Waypoint>
        ensures value { shown result ≡ slice_get (waypoints self.old) 0 }
        ensures list { waypoints self.new ≡ drop 1 (waypoints self.old) }
    {
        slots::take(&mut self.slots, &mut self.len)
    }

    pub fn count(&self) -> usize
        ensures { result ≡ length (waypoints self.now) }
    {
        slots::count(&self.slots, self.len)
    }

    pub fn clear(&mut self)
        ensures { waypoints self.new ≡ [] }
    {
        slots::clear(&mut self.slots, &mut self.len);
    }
}
