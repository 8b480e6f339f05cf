ghost use Rattle.std.specs.Prelude.{◌≡◌, ◌≤◌, length};

use crate::waypoint::Waypoint;

// The waypoints that a group has yet to go to, eight at most.
#[derive(Clone, Copy)]
pub struct Route {
    pub(crate) slots: [Waypoint; 8],
    pub(crate) len: usize,
    ghost room: { length slots ≡ 8 },
    ghost few: { len ≤ 8 },
}
