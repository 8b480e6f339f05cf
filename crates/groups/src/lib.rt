// A group of axes: its members, the profile of its starts, and the waypoints that wait.
#![tactic(auto)]

mod group;
mod group_calls;
mod members;
mod members_calls;
mod profiles;

pub use group::Group;
pub use members::Members;
pub use profiles::lesser;
