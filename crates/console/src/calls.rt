ghost use Rattle.std.specs.Prelude.{◌≡◌, ◌≤◌, [], length, Ok, Err, IfOk};
ghost use Rattle.number.specs.Writing.{write};
ghost use Rattle.rules.specs.Steps.{all_replies};
ghost use Rattle.rules.specs.Calls.{line_call, ticks_call, error_call, line_world, line_outcomes, too_long, line_taken};
ghost use Rattle.console.specs.Answers.{world, plain_answer, line_answer, entry_answer, replies_taken};
ghost use Rattle.engine.specs.Bounds.{Whole};

use crate::console::Console;
use crate::line_done::LineDone;
use crate::matching::matches;
use command::line::first_line;
use drive::Drive;
use engine::run_line;
use motion::beats;
use queue::{ErrorEntry, Fault, Refusal};

/// The smallest reply buffer.
const REPLY: usize = 4096;

/// The longest line, without its CR.
const LONGEST: usize = 80;

/// The most ticks of one call.
const MOST: u32 = 60_000;

impl Console {
    /// Runs the commands of a line that was found. Over 80 bytes none is run, and that the line is too long is noted.
    #[tactic(auto, using(number::proofs::Written::write_nothing))]
    fn run<D: Drive>(&mut self, drive: &mut D, line: &[u8], reply: &mut [u8]) -> usize
        ensures world { world self.new (D.Drive.axes drive.new) ≡ line_world (world self.old (D.Drive.axes drive.old)) line.now (too_long line.now) }
        ensures reply { (result, reply.new) ≡ write reply.old 0 (all_replies (line_outcomes (world self.old (D.Drive.axes drive.old)) line.now (too_long line.now))) }
        ensures whole { 4096 ≤ length reply.old → Whole (all_replies (line_outcomes (world self.old (D.Drive.axes drive.old)) line.now (too_long line.now))) result reply.new }
    {
        if line.len() > LONGEST {
            self.state.errors.push(ErrorEntry {
                fault: Fault::LineTooLong,
                column: 1,
            });
            return 0;
        }
        run_line(&mut self.state, drive, line, reply)
    }

    /// Runs the line that ends at the first CR. The replies stand whole from the buffer's first byte, and the bytes behind them are kept.
    pub fn line<D: Drive>(
        &mut self,
        drive: &mut D,
        line: &[u8],
        reply: &mut [u8],
    ) -> Result<LineDone, Refusal>
        ensures runs { (line_answer result, (world self.new (D.Drive.axes drive.new), reply.new)) ≡ line_call (world self.old (D.Drive.axes drive.old)) line.now reply.old }
        ensures whole { IfOk result (λ d. Whole (replies_taken (world self.old (D.Drive.axes drive.old)) (line_taken (world self.old (D.Drive.axes drive.old)) line.now (length reply.old))) d.written reply.new) }
        ensures kept { elim result [ Ok d ↦ Unit {0} | Err e ↦ (self.new ≡ self.old) × ((drive.new ≡ drive.old) × (reply.new ≡ reply.old)) ] }
    {
        if !matches(&self.state.desk, drive) {
            return Err(Refusal::DriveMismatch);
        }
        if reply.len() < REPLY {
            return Err(Refusal::ReplyTooSmall);
        }
        let Some(found) = first_line(line) else {
            return Err(Refusal::LineOpen);
        };
        let written = self.run(drive, found.bytes, reply);
        Ok(LineDone {
            taken: found.taken,
            written,
        })
    }

    /// Makes the ticks named, 1 to 60,000, each with its groups.
    pub fn ticks<D: Drive>(&mut self, drive: &mut D, count: u32) -> Result<(), Refusal>
        ensures ticks { (plain_answer result, world self.new (D.Drive.axes drive.new)) ≡ ticks_call (world self.old (D.Drive.axes drive.old)) count }
        ensures kept { elim result [ Ok u ↦ Unit {0} | Err e ↦ (self.new ≡ self.old) × (drive.new ≡ drive.old) ] }
    {
        if !matches(&self.state.desk, drive) {
            return Err(Refusal::DriveMismatch);
        }
        if !(1..=MOST).contains(&count) {
            return Err(Refusal::TickCount);
        }
        beats(&mut self.state.desk, drive, count);
        Ok(())
    }

    /// The n-th oldest error, counted from 1. It is kept.
    pub fn error(&self, n: usize) -> Result<ErrorEntry, Refusal>
        ensures { entry_answer result ≡ error_call (world self.now []) n }
    {
        self.state.errors.nth(n).ok_or(Refusal::NoSuchError)
    }
}
