ghost use Rattle.std.specs.Prelude.{◌≡◌, ◌≤◌, false, length, Some, None};
ghost use Rattle.queue.specs.Waypoints.{shown};
ghost use Rattle.desk.specs.Tables.{there};
ghost use Rattle.std.specs.Fn.{FnOnceReturnsAtMut};
ghost use Rattle.groups.specs.Groups.{GroupModel, group_model, members_of};
ghost use Rattle.desk.specs.Desks.{model_of, group_at, on_group, group_velocity_set, group_acceleration_set, group_deceleration_set, dissolved, waypoint_queued, waypoint_taken, waypoints_emptied};
ghost use Rattle.desk.specs.Found.{Found, Missing};

use crate::desk_state::Desk;
use drive::Profile;
use groups::{Group, Members};
use queue::Waypoint;

impl Desk {
    pub fn group_count(&self) -> usize
        ensures value { result ≡ length (model_of self.now).groups }
        ensures few { result ≤ 6 }
    {
        self.groups.len()
    }

    // The group with that number, counted from 1. A copy: no clause can be shown yet of a `&mut` to an item of an array.
    pub(crate) fn find(&self, group: usize) -> Option<Group>
        ensures { elim result [ Some g ↦ Found self.now group g | None ↦ Missing self.now group ] }
    {
        self.groups.get(group.checked_sub(1)?)
    }

    // The members of a group; none where it is free or not there.
    pub fn members(&self, group: usize) -> Members
        ensures { members_of result ≡ (group_at group (model_of self.now)).members }
    {
        self.find(group).map_or(Members::none(), |g| g.members)
    }

    // The profile of a group's starts.
    pub fn group_profile(&self, group: usize) -> Profile
        ensures { result ≡ (group_at group (model_of self.now)).profile }
    {
        self.find(group).map_or(Profile::default(), |g| g.profile)
    }

    // How many waypoints of a group wait.
    pub fn waypoint_count(&self, group: usize) -> usize
        ensures { result ≡ length (group_at group (model_of self.now)).waypoints }
    {
        self.find(group).map_or(0, |g| g.route.count())
    }

    // `change` makes another group of one that has members; where it computes f, the table shows f of that row alone.
    // False where there are no members.
    fn change_group<F: FnOnce(&mut Group)>(&mut self, group: usize, change: F) -> bool
        requires { F.IsAlwaysCallable change }
        ensures { (f : GroupModel → GroupModel) → ((a b : Group) → FnOnceReturnsAtMut F.FnOnce change a tt b → group_model b ≡ f (group_model a)) → (result, model_of self.new) ≡ on_group f group (model_of self.old) }
    {
        let Some(mut g) = self.find(group) else {
            return false;
        };
        if g.members.is_empty() {
            return false;
        }
        change(&mut g);
        self.groups.set(group - 1, g);
        true
    }

    // The three figures of a group, false where it has no members.

    pub fn set_group_velocity(&mut self, group: usize, velocity: u32) -> bool
        ensures { (result, model_of self.new) ≡ group_velocity_set group velocity (model_of self.old) }
    {
        self.change_group(group, |g| g.profile.velocity = velocity)
    }

    pub fn set_group_acceleration(&mut self, group: usize, acceleration: u32) -> bool
        ensures { (result, model_of self.new) ≡ group_acceleration_set group acceleration (model_of self.old) }
    {
        self.change_group(group, |g| g.profile.acceleration = acceleration)
    }

    pub fn set_group_deceleration(&mut self, group: usize, deceleration: u32) -> bool
        ensures { (result, model_of self.new) ≡ group_deceleration_set group deceleration (model_of self.old) }
    {
        self.change_group(group, |g| g.profile.deceleration = deceleration)
    }

    // Frees the members and empties the waypoints; false where there are no members.
    pub fn dissolve(&mut self, group: usize) -> bool
        ensures { (result, model_of self.new) ≡ dissolved group (model_of self.old) }
    {
        self.change_group(group, |g| *g = Group::free())
    }

    // Puts a waypoint behind the others that wait. False where the group has no members, the waypoint has not one position
    // for each, or eight wait.
    pub fn queue_waypoint(&mut self, group: usize, positions: &[i32]) -> bool
        ensures { (result, model_of self.new) ≡ waypoint_queued group positions.now (model_of self.old) }
    {
        let Some(mut g) = self.find(group) else {
            return false;
        };
        if g.members.is_empty() || g.members.count() != positions.len() {
            return false;
        }
        let Some(w) = Waypoint::new(positions) else {
            return false;
        };
        if !g.route.add(w) {
            return false;
        }
        self.groups.set(group - 1, g);
        true
    }

    // Takes out the waypoint that has waited longest.
    pub fn take_waypoint(&mut self, group: usize) -> Option<Waypoint>
        ensures { (shown result, model_of self.new) ≡ waypoint_taken group (model_of self.old) }
    {
        let Some(mut g) = self.find(group) else {
            return None;
        };
        let first = g.route.take();
        self.groups.set(group - 1, g);
        first
    }

    pub fn empty_waypoints(&mut self, group: usize)
        ensures { model_of self.new ≡ waypoints_emptied group (model_of self.old) }
    {
        if let Some(mut g) = self.find(group) {
            g.route.clear();
            self.groups.set(group - 1, g);
        }
    }
}
