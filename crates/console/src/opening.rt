ghost use Rattle.std.specs.Prelude.{◌≡◌, List, Ok, Err};
ghost use Rattle.drive.specs.Model.{Axis};
ghost use Rattle.rules.specs.Calls.{unopened, open_call};
ghost use Rattle.console.specs.Answers.{world, plain_answer};
ghost use Rattle.console.specs.Opened.{OpenedLawfully};

use crate::console::Console;
use crate::matching::{all_placed, matches};
use desk::{Desk, State};
use drive::Drive;
use motion::power_off_every;
use queue::Refusal;
use setup::{Setup, decode};

impl Console {
    /// A console that was never opened: it has no axes. No `Default` beside it: nothing generic makes one.
    pub fn new() -> Console
        ensures { (axes : List Axis) → world result axes ≡ unopened axes }
    {
        Console {
            state: State::unopened(),
        }
    }

    /// Opens the console over a drive, with a setup record for each axis. A refused opening changes nothing. Behind an accepted one
    /// every run is lawful, whatever calls follow.
    pub fn open<D: Drive>(&mut self, drive: &mut D, records: &[u8]) -> Result<(), Refusal>
        ensures opens { (plain_answer result, world self.new (D.Drive.axes drive.new)) ≡ open_call (world self.old (D.Drive.axes drive.old)) records.now }
        ensures kept { elim result [ Ok u ↦ Unit {0} | Err e ↦ (self.new ≡ self.old) × (drive.new ≡ drive.old) ] }
        ensures lawful { OpenedLawfully records.now result (world self.new (D.Drive.axes drive.new)) }
    {
        self.set_up(drive, records)
    }

    /// The opening itself: the records are read, compared with the drive, and taken over.
    fn set_up<D: Drive>(&mut self, drive: &mut D, records: &[u8]) -> Result<(), Refusal>
        ensures opens { (plain_answer result, world self.new (D.Drive.axes drive.new)) ≡ open_call (world self.old (D.Drive.axes drive.old)) records.now }
        ensures kept { elim result [ Ok u ↦ Unit {0} | Err e ↦ (self.new ≡ self.old) × (drive.new ≡ drive.old) ] }
    {
        let setup = decode(records)?;
        let desk = Desk::opened(&setup);
        if !matches(&desk, drive) {
            return Err(Refusal::DriveMismatch);
        }
        if !all_placed(&desk, drive) {
            return Err(Refusal::OutsideLimits);
        }
        power_off_every(drive);
        self.state = State::opened(&setup);
        Ok(())
    }
}
