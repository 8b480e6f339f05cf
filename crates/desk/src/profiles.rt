ghost use Rattle.std.specs.Prelude.{◌≡◌, ◌≤◌, true, length};
ghost use Rattle.std.specs.List.{list_all};
ghost use Rattle.desk.specs.Tables.{there};
ghost use Rattle.desk.specs.Axes.{own_of, smallest_own};
ghost use Rattle.desk.specs.Desks.{model_of, can_join};

use crate::desk_state::Desk;
use drive::Profile;
use groups::lesser;

impl Desk {
    // The own profile of an axis.
    #[tactic(auto, using(crate::proofs::Changes::row_or_some, crate::proofs::Changes::row_or_none))]
    pub(crate) fn own_of(&self, axis: usize) -> Profile
        ensures { result ≡ own_of (model_of self.now).axes axis }
    {
        match self.axis(axis) {
            Some(settings) => settings.own,
            None => Profile::default(),
        }
    }

    // The smallest of the members' own profiles.
    pub(crate) fn smallest(&self, members: &[u8]) -> Profile
        ensures { result ≡ smallest_own (model_of self.now).axes members.now }
    {
        let Some((first, rest)) = members.split_first() else {
            return Profile::default();
        };
        let mut p = self.own_of(*first as usize);
        // no `fold`: `search` does not prove what a `fold` of structs gives
        for member in rest {
            p = lesser(p, self.own_of(*member as usize));
        }
        p
    }

    fn all_axes(&self, members: &[u8]) -> bool
        ensures { result ≡ list_all (λ m. there m (model_of self.now).axes) members.now }
    {
        members.iter().all(|m| self.has_axis(*m as usize))
    }

    // Whether there are 2 to 12 of them, each of them an axis.
    pub(crate) fn can_join(&self, members: &[u8]) -> bool
        ensures value { result ≡ can_join members.now (model_of self.now) }
        ensures few { result ≡ true → (2 ≤ length members.now) × (length members.now ≤ 12) }
    {
        (2..=12).contains(&members.len()) && self.all_axes(members)
    }
}
