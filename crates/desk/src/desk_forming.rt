ghost use Rattle.std.specs.Prelude.{◌≡◌};
ghost use Rattle.std.specs.List.{position};
ghost use Rattle.fixed.specs.Lists.{held};
ghost use Rattle.groups.specs.Groups.{members_of, has};
ghost use Rattle.desk.specs.Desks.{model_of, formed, group_of};

use crate::desk_state::Desk;
use groups::{Group, Members};
use queue::Route;

impl Desk {
    // Forms a free group of 2 to 12 axes; anything else is refused.
    pub fn form(&mut self, group: usize, members: &[u8]) -> bool
        ensures { (result, model_of self.new) ≡ formed group members.now (model_of self.old) }
    {
        let Some(g) = self.find(group) else {
            return false;
        };
        if !g.members.is_empty() || !self.can_join(members) {
            return false;
        }
        let Some(all) = Members::new(members) else {
            return false;
        };
        let profile = self.smallest(members);
        let formed = Group {
            members: all,
            profile,
            route: Route::new(),
        };
        self.groups.set(group - 1, formed);
        true
    }

    // The place of the first group that the axis is in, counted from 0.
    fn place_of(&self, axis: usize) -> Option<usize>
        ensures { result ≡ position (λ g. has axis (members_of g.members)) (held self.now.groups) }
    {
        let groups = self.groups.as_slice();
        groups.iter().position(|g| g.members.has(axis))
    }

    // The number of the first group that the axis is a member of.
    #[tactic(auto, using(crate::proofs::Joining::first_some, crate::proofs::Joining::first_none))]
    pub fn group_of(&self, axis: usize) -> Option<usize>
        ensures { result ≡ group_of axis (model_of self.now) }
    {
        let place = self.place_of(axis)?;
        Some(place + 1)
    }
}
