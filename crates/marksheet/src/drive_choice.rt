ghost use Rattle.std.specs.Prelude.{◌≡◌, MatchOption, Some};
ghost use Rattle.std.specs.Float.{binary64};
ghost use Rattle.std.specs.Float.Parse.{parse_float};
ghost use Rattle.std.specs.Float.Ieee.{Float};
ghost use Rattle.marksheet.specs.Choosing.{IsShare};

use crate::words::{UnknownWord, number_up_to};
use std::fmt;
use std::str::FromStr;

/// The longest stride, in micro-units.
const MOST_STRIDE: u32 = 2_000_000_000;

/// How the drive travels.
#[derive(Clone, Copy)]
pub enum DriveChoice {
    Instant,
    Stepping,
    /// Micro-units in a tick.
    Stride(u32),
    /// The part of the way left that a tick makes.
    Share(f64),
}

/// The share that a text writes, above 0 and at most 1.
fn share(text: &str) -> Option<f64>
    ensures { MatchOption result ((x : Float) → parse_float binary64 text.now ≡ Some x → ¬ IsShare x) (λ x. (parse_float binary64 text.now ≡ Some x) × IsShare x) }
{
    let part = text.parse::<f64>().ok();
    part.filter(|part| *part > 0.0 && *part <= 1.0)
}

impl FromStr for DriveChoice {
    type Err = UnknownWord;

    ghost use Rattle.marksheet.specs.Choosing.{Chooses};

    ghost from_str_gives = { Chooses };

    fn from_str(word: &str) -> Result<DriveChoice, UnknownWord> {
        match word {
            "instant" => Ok(DriveChoice::Instant),
            "stepping" => Ok(DriveChoice::Stepping),
            _ => {
                let choice = if let Some(text) = word.strip_prefix("stride=") {
                    number_up_to(MOST_STRIDE, text).map(DriveChoice::Stride)
                } else if let Some(text) = word.strip_prefix("share=") {
                    share(text).map(DriveChoice::Share)
                } else {
                    None
                };
                choice.ok_or(UnknownWord)
            }
        }
    }
}

impl fmt::Display for DriveChoice {
    fn fmt<W: fmt::Write>(&self, f: &mut fmt::Formatter<W>) -> fmt::Result {
        match self {
            DriveChoice::Instant => write!(f, "instant"),
            DriveChoice::Stepping => write!(f, "stepping"),
            DriveChoice::Stride(n) => write!(f, "easing by a stride of {n}"),
            DriveChoice::Share(part) => write!(f, "easing by a share of {part}"),
        }
    }
}
