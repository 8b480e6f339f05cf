use crate::record::SetupRecord;
use fixed::FixedList;

// The setup records of 12 axes at most, in the order of the axes.
#[derive(Clone, Copy)]
pub struct Setup {
    pub(crate) list: FixedList<SetupRecord, 12>,
}
