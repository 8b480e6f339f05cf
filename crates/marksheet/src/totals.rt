ghost use Rattle.std.specs.Prelude.{◌≡◌, ◌==◌, ◌+◌, length, count_by, min};

/// What a session has come to so far. The sums stay at their greatest numbers.
#[derive(Clone, Copy, Default)]
pub struct Totals {
    pub lines: u64,
    pub replies: u64,
    pub reply_bytes: u64,
}

impl Totals {
    pub fn add_line(&mut self)
        ensures { self.new ≡ record self.old { lines = min u64.MAX (self.old.lines + 1) } }
    {
        self.lines = self.lines.saturating_add(1);
    }

    /// Counts the replies of a line, each of which ends with LF.
    pub fn add_replies(&mut self, replies: &[u8])
        ensures replies { self.new.replies ≡ min u64.MAX (self.old.replies + count_by (λ b. b == 10) replies.now) }
        ensures reply_bytes { self.new.reply_bytes ≡ min u64.MAX (self.old.reply_bytes + length replies.now) }
        ensures lines { self.new.lines ≡ self.old.lines }
    {
        let count = replies.iter().filter(|b| **b == b'\n').count();
        self.replies = self.replies.saturating_add(count as u64);
        self.reply_bytes = self.reply_bytes.saturating_add(replies.len() as u64);
    }
}
