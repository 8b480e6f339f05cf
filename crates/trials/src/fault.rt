use hex::FromHexError;
use std::alloc::AllocError;
use std::io;
use thiserror::Error;

/// Why a script does not go on.
#[derive(Debug, Drop, Error)]
pub enum Fault {
    #[error("no directive has these words")]
    Words,
    #[error("a word that is to be a number is none")]
    Number,
    #[error("an odd number of hex digits")]
    OddDigits,
    /// What stands at this place of its word, counted from 0, is no hex digit.
    #[error("no hex digit at place {0} of its word")]
    NoDigit(usize),
    #[error("a setup record has 48 bytes, and this one {0}")]
    RecordLength(usize),
    #[error("the case has no drive yet")]
    NoDrive,
    #[error("the drive is reversed at two axes already")]
    ReversedTwice,
    #[error("out of memory")]
    Memory(#[from(alloc)] AllocError),
    #[error(transparent)]
    Io(#[from] io::Error),
}

impl From<FromHexError> for Fault {
    ghost use Rattle.std.specs.Prelude.{◌≡◌};
    ghost use Rattle.trials.specs.Hex.{fault_of};

    ghost from_gives = { λ error fault. fault ≡ fault_of error };

    fn from(error: FromHexError) -> Fault {
        match error {
            FromHexError::InvalidHexCharacter { index, .. } => Fault::NoDigit(index),
            FromHexError::OddLength | FromHexError::InvalidStringLength => Fault::OddDigits,
            FromHexError::OutOfMemory => Fault::Memory(AllocError),
        }
    }
}
