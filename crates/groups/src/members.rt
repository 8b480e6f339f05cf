use fixed::FixedList;

// The axis numbers of a group's members, in the order named.
#[derive(Clone, Copy)]
pub struct Members {
    pub(crate) list: FixedList<u8, 12>,
}
