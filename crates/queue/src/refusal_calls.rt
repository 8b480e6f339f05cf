ghost use Rattle.std.specs.Prelude.{◌≡◌, Some};
ghost use Rattle.queue.specs.Refusals.{number_of, words_of};

use crate::refusal::Refusal;
use std::fmt;

impl From<Refusal> for u16 {
    ghost from_gives = { λ refusal number. number ≡ number_of refusal };

    fn from(refusal: Refusal) -> u16 {
        match refusal {
            Refusal::RecordCount => 9001,
            Refusal::RecordLayout => 9002,
            Refusal::DriveMismatch => 9003,
            Refusal::OutsideLimits => 9004,
            Refusal::ReplyTooSmall => 9005,
            Refusal::LineOpen => 9006,
            Refusal::TickCount => 9007,
            Refusal::NoSuchError => 9008,
        }
    }
}

impl Refusal {
    pub fn number(self) -> u16
        ensures { result ≡ number_of self }
    {
        self.into()
    }

    // What the refusal means.
    pub fn text(self) -> &'static str
        ensures { result.now ≡ words_of self }
    {
        match self {
            Refusal::RecordCount => "a setup has 2 to 12 whole records of 48 bytes",
            Refusal::RecordLayout => "a setup record breaks the layout",
            Refusal::DriveMismatch => "a limit of the setup passes the reach of the drive",
            Refusal::OutsideLimits => "an axis stands outside its limits",
            Refusal::ReplyTooSmall => "the buffer for the replies is too small",
            Refusal::LineOpen => "the line has no end",
            Refusal::TickCount => "the number of ticks is not 1 to 60000",
            Refusal::NoSuchError => "no such error waits",
        }
    }
}

impl fmt::Display for Refusal {
    ghost output = { λ refusal. Some (words_of refusal) };

    fn fmt<W: fmt::Write>(&self, f: &mut fmt::Formatter<W>) -> fmt::Result {
        f.pad(self.text())
    }
}
