use crate::flag::Flag;
use std::alloc::AllocError;
use thiserror::Error;

/// How many axes can be reversed.
pub const MOST_REVERSED: usize = 3;

pub const USAGE: &str = "\
marksheet: runs an answer file on a console and prints its mark sheet

usage: marksheet [--setup FILE] [--drive DRIVE] [--reversed AXIS].. ANSWERS

ANSWERS          the answer file, a line of commands a line; - is standard input
--setup FILE     the setup file: 2 to 12 records of 48 bytes; without it, the course setup of three axes
--drive DRIVE    instant, stepping, stride=N (whole, 1 to 2000000000) or share=F (above 0, at most 1);
                 without it, stepping
--reversed AXIS  mounts an axis the other way round; for three axes at most
--help           prints this";

/// What is wrong with the words that the program was called with.
#[derive(Debug, Drop, Error)]
pub enum UsageError {
    #[error("unknown option {0}: the options are --setup FILE, --drive DRIVE, --reversed AXIS and --help")]
    UnknownOption(String),
    /// Nothing stands behind an option that wants a word.
    #[error("{0} wants {wanted} behind it", wanted = .0.wanted())]
    ValueMissing(Flag),
    #[error("--drive {0}: it wants {wanted}", wanted = Flag::Drive.wanted())]
    BadDrive(String),
    #[error("--reversed {0}: it wants {wanted}", wanted = Flag::Reversed.wanted())]
    BadAxis(String),
    #[error("--reversed {0}: axis {0} is named twice")]
    ReversedAgain(usize),
    #[error("--reversed: at most {MOST_REVERSED} axes can be reversed")]
    TooManyReversed,
    #[error("no answer file: name one, or - for standard input")]
    NoAnswers,
    #[error("{0} is a second answer file: name one alone")]
    SecondAnswers(String),
    #[error("out of memory")]
    Memory(#[from(alloc)] AllocError),
}
