ghost use Rattle.std.specs.Prelude.{◌≡◌, MatchResult};
ghost use Rattle.queue.specs.Refusals.{number_of};

use crate::fault::Fault;
use crate::rig::{Rig, mounted, reversed};
use crate::script::Directive;
use crate::show::{show_errors, show_line};
use console::Console;
use queue::Refusal;
use std::alloc::Global;

/// What each byte of a reply buffer is before a line call.
const FILLED: u8 = 0xA5;

/// What a case of a script has come to: its drive, its setup records and its console.
#[derive(Drop)]
pub struct Case {
    heap: Global,
    rig: Option<Rig>,
    records: Vec<u8>,
    console: Console,
}

/// The number of a call's refusal, and 0 where there is none, as a script's answer prints it.
fn number_of<T: Drop>(answer: Result<T, Refusal>) -> u16
    ensures { MatchResult answer (λ _. result ≡ 0) (λ e. result ≡ number_of e) }
{
    answer.err().map_or(0, Refusal::number)
}

impl Case {
    /// No drive, no records, an unopened console.
    pub fn new(heap: Global) -> Case {
        Case {
            heap,
            rig: None,
            records: Vec::new(heap),
            console: Console::new(),
        }
    }

    fn reverse(&mut self, axis: usize) -> Result<(), Fault> {
        let rig = self.rig.take().ok_or(Fault::NoDrive)?;
        self.rig = Some(reversed(rig, axis).ok_or(Fault::ReversedTwice)?);
        Ok(())
    }

    fn open(&mut self) -> Result<u16, Fault> {
        let rig = self.rig.as_mut().ok_or(Fault::NoDrive)?;
        Ok(number_of(self.console.open(rig, self.records.as_slice())))
    }

    fn ticks(&mut self, count: u32) -> Result<u16, Fault> {
        let rig = self.rig.as_mut().ok_or(Fault::NoDrive)?;
        Ok(number_of(self.console.ticks(rig, count)))
    }

    fn line(&mut self, rt: &impl Print, room: usize, bytes: &[u8]) -> Result<(), Fault> {
        let rig = self.rig.as_mut().ok_or(Fault::NoDrive)?;
        let mut reply = vec![in self.heap; FILLED; room]?;
        let answer = self.console.line(rig, bytes, reply.as_mut_slice());
        show_line(rt, answer, reply.as_slice(), FILLED)?;
        show_errors(rt, &self.console)?;
        Ok(())
    }

    fn error(&self, rt: &impl Print, n: usize) -> Result<(), Fault> {
        match self.console.error(n) {
            Ok(entry) => println!(rt; "error 0 {} {}", entry.fault.code(), entry.column)?,
            Err(refusal) => println!(rt; "error {}", refusal.number())?,
        }
        Ok(())
    }

    /// Does what a directive asks for, and prints what came of it.
    pub fn obey(&mut self, rt: &impl Print, directive: Directive) -> Result<(), Fault> {
        match directive {
            Directive::Case(n) => {
                *self = Case::new(self.heap);
                println!(rt; "case {n}")?;
            }
            Directive::Drive(bank) => self.rig = Some(mounted(bank)),
            Directive::Reversed(axis) => self.reverse(axis)?,
            Directive::Record(bytes) => self.records.extend_from_slice(bytes.as_slice())?,
            Directive::Open => println!(rt; "open {}", self.open()?)?,
            Directive::Line { room, bytes } => self.line(rt, room, bytes.as_slice())?,
            Directive::Ticks(count) => println!(rt; "ticks {}", self.ticks(count)?)?,
            Directive::Error(n) => self.error(rt, n)?,
        }
        Ok(())
    }
}
