use crate::entry::Entry;
use crate::fault::Fault;

// A coded refusal that waits to be read, with the column it stands at, counted from 1.
#[derive(Clone, Copy)]
pub struct ErrorEntry {
    pub fault: Fault,
    pub column: usize,
}

impl ErrorEntry {
    // The greatest number that may wait.
    pub const MOST: usize = <ErrorEntry as Entry>::MOST;
}

impl Entry for ErrorEntry {
    const MOST: usize = 10;

    ghost most = { 10 };

    fn limit() -> usize {
        Self::MOST
    }
}
