ghost use Rattle.std.specs.Prelude.{◌≡◌, MatchOption};
ghost use Rattle.marksheet.specs.Choosing.{WritesUpTo, number_in};

use crate::drive_choice::DriveChoice;
use crate::flag::Flag;
use crate::usage::{MOST_REVERSED, UsageError};
use crate::words::number_up_to;
use std::alloc::Global;
use std::env::Args;

/// The console and the drive that the answers are run on.
#[derive(Drop)]
pub struct Settings {
    /// The setup file; none means the course setup.
    pub setup: Option<String>,
    pub drive: DriveChoice,
    pub reversed: Vec<usize>,
}

/// What a mark sheet is made of.
#[derive(Drop)]
pub struct Options {
    pub settings: Settings,
    /// The answer file, or `-`.
    pub answers: String,
}

/// What the program is asked for.
#[derive(Drop)]
pub enum Request {
    Help,
    Sheet(Options),
}

/// The axis that a word names, 1 to 12.
fn axis_named(word: &str) -> Option<usize>
    ensures { MatchOption result (¬ WritesUpTo 12 word.now) (λ n. WritesUpTo 12 word.now × (n ≡ number_in word.now)) }
{
    number_up_to(12, word).map(|n| n as usize)
}

/// What the words so far have said.
#[derive(Drop)]
struct Draft {
    settings: Settings,
    answers: Option<String>,
}

impl Draft {
    fn new(heap: Global) -> Draft {
        Draft {
            settings: Settings {
                setup: None,
                drive: DriveChoice::Stepping,
                reversed: Vec::new(heap),
            },
            answers: None,
        }
    }

    fn reverse(&mut self, word: String) -> Result<(), UsageError> {
        let Some(axis) = axis_named(word.as_str()) else {
            return Err(UsageError::BadAxis(word));
        };
        let reversed = &mut self.settings.reversed;
        if reversed.contains(&axis) {
            return Err(UsageError::ReversedAgain(axis));
        }
        if reversed.len() >= MOST_REVERSED {
            return Err(UsageError::TooManyReversed);
        }
        reversed.push(axis)?;
        Ok(())
    }

    /// Takes the word behind an option.
    fn take_value(&mut self, flag: Flag, word: String) -> Result<(), UsageError> {
        match flag {
            Flag::Setup => self.settings.setup = Some(word),
            Flag::Drive => match word.as_str().parse() {
                Ok(choice) => self.settings.drive = choice,
                Err(_) => return Err(UsageError::BadDrive(word)),
            },
            Flag::Reversed => self.reverse(word)?,
        }
        Ok(())
    }

    /// Takes a word that stands alone.
    fn take_answers(&mut self, word: String) -> Result<(), UsageError> {
        if word.as_str() != "-" && word.as_str().starts_with('-') {
            return Err(UsageError::UnknownOption(word));
        }
        if self.answers.is_some() {
            return Err(UsageError::SecondAnswers(word));
        }
        self.answers = Some(word);
        Ok(())
    }

    fn finish(self) -> Result<Options, UsageError> {
        let Draft { settings, answers } = self;
        let answers = answers.ok_or(UsageError::NoAnswers)?;
        Ok(Options { settings, answers })
    }
}

impl Request {
    /// What the words behind the program's name ask for.
    pub fn parse(heap: Global, words: Args) -> Result<Request, UsageError> {
        let mut draft = Draft::new(heap);
        let mut words = words.skip(1);
        while let Some(word) = words.next() {
            if word.as_str() == "--help" {
                return Ok(Request::Help);
            }
            match word.as_str().parse() {
                Ok(flag) => {
                    let value = words.next().ok_or(UsageError::ValueMissing(flag))?;
                    draft.take_value(flag, value)?;
                }
                Err(_) => draft.take_answers(word)?,
            }
        }
        Ok(Request::Sheet(draft.finish()?))
    }
}
