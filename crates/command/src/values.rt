// What follows the mnemonic of a command: a question, or parameters one after another.
ghost use Rattle.std.specs.Prelude.{◌≡◌, ◌+◌, ◌^◌, ◌<◌, ◌≤◌, [], length, if◌then◌else◌, Some, None, IfSome, IfNone, OnSome};
ghost use Rattle.std.specs.Option.{option_map};
ghost use Rattle.number.specs.Digits.{number};
ghost use Rattle.command.specs.Held.{seen_span, left_of};
ghost use Rattle.command.specs.Commands.{prefix_number, capped};
ghost use Rattle.command.specs.Views.{seen, seen_text, text_of, said, countable, to_give, limit_of, gives};

use crate::command::Command;
use crate::parameters::Parameters;
use crate::parts::Parts;
use crate::span::Span;
use crate::text::{Field, Text};

/// From this number on all numbers are alike: there are never so many axes or groups.
const CAP: u32 = 1000;

/// The last column that is counted, far behind the end of any line.
const LAST: usize = 1 << 63;

/// The number that digits write, however many they are; 1000 where it is larger.
fn capped_number(digits: &[u8]) -> u32
    ensures { result ≡ capped (number digits.now) }
{
    let mut n = 0;
    for c in digits {
        n = (n * 10 + u32::from(c.saturating_sub(b'0'))).min(CAP);
    }
    n
}

impl<'a> Command<'a> {
    /// The number in front, if there is one; 1000 where it is larger.
    pub fn prefix_number(&self) -> Option<u32>
        ensures { result ≡ option_map capped (prefix_number (said self.now)) }
    {
        let prefix = self.prefix?;
        Some(capped_number(prefix.text().bytes))
    }

    /// The question, where the rest is a question mark and nothing else.
    pub fn question(&self) -> Option<Field<'a>>
        ensures { option_map seen result ≡ (said self.now).question }
    {
        match self.rest.bytes {
            [b'?'] => Some(Field::Question(self.rest)),
            _ => None,
        }
    }

    /// What follows, where it ends at a column that can be counted, as it does in every command of a line.
    fn counted(&self) -> Option<Span<'a>>
        ensures { option_map seen_span result ≡ (if countable self.now then Some (seen_text self.now.rest) else None) }
    {
        let Text { bytes, column } = self.rest;
        if column <= LAST && bytes.len() <= LAST - column {
            Some(Span { bytes, column })
        } else {
            None
        }
    }

    /// The parameters; none where the rest is nothing or a question.
    #[tactic(auto, using(crate::proofs::Least::parameters_few), unfolding(crate::specs::Commands::parameters_from))]
    pub fn parameters(&self) -> Parameters<'a>
        ensures all { to_give result ≡ (said self.now).parameters }
        ensures few { length (said self.now).parameters < 2 ^ 64 }
        ensures left { left_of result.rest ≤ length self.now.rest.bytes.now + 1 }
        ensures limit { limit_of result ≤ self.now.rest.column + length self.now.rest.bytes.now + 1 }
    {
        match self.rest.bytes {
            [] | [b'?'] => Parameters {
                rest: Parts { rest: None },
            },
            _ => Parameters {
                rest: Parts {
                    rest: self.counted(),
                },
            },
        }
    }
}

impl<'a> Parameters<'a> {
    /// The next parameter, without the blanks around it, and possibly nothing.
    pub fn next_parameter(&mut self) -> Option<Field<'a>>
        ensures next { to_give self.old ≡ gives result (to_give self.new) }
        ensures done { IfNone result (to_give self.new ≡ []) }
        ensures room { IfSome result (λ f. (text_of f).column + length (text_of f).bytes.now ≤ 2 ^ 63) }
        ensures within { IfSome result (λ f. (text_of f).column + length (text_of f).bytes.now < limit_of self.old) }
        ensures limit { limit_of self.new ≤ limit_of self.old }
        ensures less { OnSome result (left_of self.new.rest < left_of self.old.rest) }
    {
        let part = self.rest.next()?;
        Some(Field::Parameter(part.trim().text()))
    }
}

impl<'a> Iterator for Parameters<'a> {
    ghost use Rattle.std.specs.Iterator.{YieldsFirstBy, item_count};
    ghost use Rattle.command.specs.Views.{seen, to_give};

    type Item = Field<'a>;

    ghost next_gives = { YieldsFirstBy seen to_give };

    ghost remaining = { item_count to_give };

    fn next(&mut self) -> Option<Field<'a>> {
        self.next_parameter()
    }
}
