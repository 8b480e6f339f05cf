ghost use Rattle.std.specs.Prelude.{◌≡◌, Some};
ghost use Rattle.drive.specs.Words.{word_of};

use crate::refusal::DriveRefusal;
use std::error::Error;
use std::fmt;

impl DriveRefusal {
    // The word for the refusal.
    pub fn word(self) -> &'static str
        ensures { result.now ≡ word_of self }
    {
        match self {
            DriveRefusal::NoSuchAxis => "NONE",
            DriveRefusal::PowerOff => "OFF",
            DriveRefusal::Moving => "BUSY",
            DriveRefusal::OutOfReach => "FAR",
        }
    }
}

impl fmt::Display for DriveRefusal {
    ghost output = { λ r. Some (word_of r) };

    fn fmt<W: fmt::Write>(&self, f: &mut fmt::Formatter<W>) -> fmt::Result {
        f.write_str(self.word())
    }
}

impl Error for DriveRefusal {}
