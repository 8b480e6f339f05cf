ghost use Rattle.std.specs.Prelude.{◌≡◌, ◌≤◌, length};

use crate::error_entry::ErrorEntry;

// The errors that wait, ten at most.
#[derive(Clone, Copy)]
pub struct ErrorQueue {
    pub(crate) slots: [ErrorEntry; 10],
    pub(crate) len: usize,
    ghost room: { length slots ≡ 10 },
    ghost few: { len ≤ 10 },
}
