use crate::members::Members;
use drive::Profile;
use queue::Route;

// The members of a group, the profile of its starts, and the waypoints that wait.
#[derive(Clone, Copy)]
pub struct Group {
    pub members: Members,
    pub profile: Profile,
    pub route: Route,
}
