use crate::rig::Rig;
use crate::sheet::{show_line, show_refused, show_replies};
use crate::totals::Totals;
use crate::trouble::Trouble;
use console::Console;
use std::alloc::Global;

/// The bytes of the buffer for replies.
const REPLY: usize = 4096;

/// What ends a line that is sent.
const CR: u8 = 13;

/// A console that is open over its drive, and what its lines have come to.
#[derive(Drop)]
pub struct Session {
    pub console: Console,
    pub rig: Rig,
    pub totals: Totals,
    sent: Vec<u8>,
    reply: Vec<u8>,
}

impl Session {
    pub fn open(heap: Global, mut rig: Rig, records: &[u8]) -> Result<Session, Trouble> {
        let mut console = Console::new();
        console.open(&mut rig, records)?;
        Ok(Session {
            console,
            rig,
            totals: Totals::default(),
            sent: Vec::new(heap),
            reply: vec![in heap; 0; REPLY]?,
        })
    }

    /// Prints a line of the answers, runs it, and prints its replies.
    pub fn answer(&mut self, rt: &impl Print, line: &[u8]) -> Result<(), Trouble> {
        self.totals.add_line();
        show_line(rt, self.totals.lines, line)?;
        self.sent.clear();
        self.sent.extend_from_slice(line)?;
        self.sent.push(CR)?;
        let answer = self.console.line(
            &mut self.rig,
            self.sent.as_slice(),
            self.reply.as_mut_slice(),
        );
        match answer {
            Ok(done) => {
                let written = done.written.min(self.reply.len());
                let (replies, _) = self.reply.as_slice().split_at(written);
                self.totals.add_replies(replies);
                show_replies(rt, replies)?;
            }
            Err(refusal) => show_refused(rt, refusal)?,
        }
        Ok(())
    }
}
