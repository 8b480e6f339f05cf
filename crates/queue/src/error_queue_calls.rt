ghost use Rattle.std.specs.Prelude.{◌≡◌, [], length, drop};
ghost use Rattle.queue.specs.Queue.{pushed};
ghost use Rattle.queue.specs.Errors.{entries, nth_error};
ghost use Rattle.std.specs.List.{slice_get};

use crate::error_entry::ErrorEntry;
use crate::error_queue::ErrorQueue;
use crate::fault::Fault;
use crate::slots;

impl ErrorQueue {
    // No `Default` beside it: nothing generic makes one.
    pub fn new() -> ErrorQueue
        ensures { entries result ≡ [] }
    {
        let unused = ErrorEntry {
            fault: Fault::UnknownCommand,
            column: 0,
        };
        ErrorQueue {
            slots: [unused; 10],
            len: 0,
        }
    }

    // Notes an error; where ten wait, the oldest is pushed out.
    pub fn push(&mut self, entry: ErrorEntry)
        ensures { entries self.new ≡ pushed 10 (entries self.old) entry }
    {
        slots::push(&mut self.slots, &mut self.len, entry);
    }

    // Takes the oldest out.
    pub fn take(&mut self) -> Option<ErrorEntry>
        ensures value { result ≡ slice_get (entries self.old) 0 }
        ensures list { entries self.new ≡ drop 1 (entries self.old) }
    {
        slots::take(&mut self.slots, &mut self.len)
    }

    // The n-th oldest, counted from 1. It stays.
    pub fn nth(&self, n: usize) -> Option<ErrorEntry>
        ensures { result ≡ nth_error n (entries self.now) }
    {
        if n == 0 {
            return None;
        }
        slots::nth_oldest(&self.slots, self.len, n - 1)
    }

    pub fn count(&self) -> usize
        ensures { result ≡ length (entries self.now) }
    {
        slots::count(&self.slots, self.len)
    }

    pub fn clear(&mut self)
        ensures { entries self.new ≡ [] }
    {
        slots::clear(&mut self.slots, &mut self.len);
    }
}
