ghost use Rattle.std.specs.Prelude.{◌≡◌, [], length, ◌==◌};
ghost use Rattle.std.specs.List.{list_any};
ghost use Rattle.groups.specs.Groups.{members_of, members_from, listed, has};

use crate::members::Members;
use fixed::FixedList;

fn is_among(axes: &[u8], axis: usize) -> bool
    ensures { result ≡ list_any (λ m. m == axis) axes.now }
{
    axes.iter().any(|member| *member as usize == axis)
}

impl Members {
    // No `Default` beside it: the name says more, and nothing generic makes one.
    pub fn none() -> Members
        ensures { members_of result ≡ [] }
    {
        Members {
            list: FixedList::empty(0),
        }
    }

    // None for more than 12.
    pub fn new(axes: &[u8]) -> Option<Members>
        ensures { listed result ≡ members_from axes.now }
    {
        let list = FixedList::from_slice(axes, 0)?;
        Some(Members { list })
    }

    pub fn axes(&self) -> &[u8]
        ensures { result.now ≡ members_of self.now }
    {
        self.list.as_slice()
    }

    pub fn count(&self) -> usize
        ensures { result ≡ length (members_of self.now) }
    {
        self.list.len()
    }

    pub fn is_empty(&self) -> bool
        ensures { result ≡ (length (members_of self.now) == 0) }
    {
        self.list.is_empty()
    }

    // Whether an axis is a member.
    #[tactic(auto, using(crate::proofs::Membership::has_any))]
    pub fn has(&self, axis: usize) -> bool
        ensures { result ≡ has axis (members_of self.now) }
    {
        is_among(self.axes(), axis)
    }
}
