use crate::words::UnknownWord;
use std::fmt;
use std::str::FromStr;

/// An option that wants a word behind it.
#[derive(Clone, Copy, PartialEq, Eq, Debug)]
pub enum Flag {
    Setup,
    Drive,
    Reversed,
}

impl Flag {
    /// What is allowed behind it.
    pub fn wanted(self) -> &'static str {
        match self {
            Flag::Setup => "the name of a setup file",
            Flag::Drive => {
                "instant, stepping, stride=N (whole, 1 to 2000000000) or share=F (above 0, at most 1)"
            }
            Flag::Reversed => "the number of an axis, 1 to 12",
        }
    }
}

impl FromStr for Flag {
    type Err = UnknownWord;

    ghost use Rattle.marksheet.specs.Choosing.{Flags};

    ghost from_str_gives = { Flags };

    fn from_str(word: &str) -> Result<Flag, UnknownWord> {
        match word {
            "--setup" => Ok(Flag::Setup),
            "--drive" => Ok(Flag::Drive),
            "--reversed" => Ok(Flag::Reversed),
            _ => Err(UnknownWord),
        }
    }
}

impl fmt::Display for Flag {
    fn fmt<W: fmt::Write>(&self, f: &mut fmt::Formatter<W>) -> fmt::Result {
        match self {
            Flag::Setup => write!(f, "--setup"),
            Flag::Drive => write!(f, "--drive"),
            Flag::Reversed => write!(f, "--reversed"),
        }
    }
}
