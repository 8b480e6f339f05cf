ghost use Rattle.std.specs.Prelude.{◌≡◌, ◌≤◌, [], length};
ghost use Rattle.setup.specs.Setups.{records_in, one_more, nth_record};

use crate::record::SetupRecord;
use crate::setup_table::Setup;
use fixed::FixedList;

impl Setup {
    // No `Default` beside it: nothing generic makes one.
    pub fn new() -> Setup
        ensures { records_in result ≡ [] }
    {
        Setup {
            list: FixedList::empty(SetupRecord::default()),
        }
    }

    // Adds the record of the next axis; refused after 12.
    pub fn add(&mut self, next: SetupRecord) -> bool
        ensures { (result, records_in self.new) ≡ one_more (records_in self.old) next }
    {
        self.list.push(next).is_ok()
    }

    pub fn count(&self) -> usize
        ensures value { result ≡ length (records_in self.now) }
        ensures few { result ≤ 12 }
    {
        self.list.len()
    }

    pub fn records(&self) -> &[SetupRecord]
        ensures value { result.now ≡ records_in self.now }
        ensures few { length result.now ≤ 12 }
    {
        self.list.as_slice()
    }

    // The record of an axis, counted from 1.
    pub fn record(&self, axis: usize) -> Option<SetupRecord>
        ensures { result ≡ nth_record axis (records_in self.now) }
    {
        self.list.get(axis.checked_sub(1)?)
    }
}
