use crate::usage::UsageError;
use queue::Refusal;
use std::alloc::AllocError;
use std::io;
use thiserror::Error;

/// Why there is no mark sheet.
#[derive(Debug, Drop, Error)]
pub enum Trouble {
    #[error("{0}\nmarksheet --help tells how it is called")]
    Usage(#[from] UsageError),
    /// A file that cannot be read: what it is, its name, and why.
    #[error("the {what} {name} cannot be read: {error}")]
    Unread {
        what: &'static str,
        name: String,
        error: io::Error,
    },
    /// An axis that is to be reversed, and how many axes the setup has.
    #[error("--reversed {axis}: the setup has the axes 1 to {count}")]
    NoSuchAxis {
        axis: usize,
        count: usize,
    },
    #[error("the setup is refused, {number}: {words}", number = .0.number(), words = .0.text())]
    SetupRefused(#[from] Refusal),
    #[error("out of memory")]
    Memory(#[from(alloc)] AllocError),
    #[error(transparent)]
    Io(#[from] io::Error),
}
