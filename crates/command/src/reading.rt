// Reading a command.
ghost use Rattle.std.specs.Prelude.{◌≡◌, ◌+◌, ◌^◌, ◌≤◌, length};
ghost use Rattle.std.specs.Option.{option_map};
ghost use Rattle.number.specs.Digits.{digits_before};
ghost use Rattle.command.specs.Lines.{bare, past};
ghost use Rattle.command.specs.Commands.{prefix_of, letters_of, named, made, body_of, command_of, prefix_number, capped};
ghost use Rattle.command.specs.Held.{seen_span};
ghost use Rattle.command.specs.Views.{seen, text_of, said};

use crate::command::Command;
use crate::names::mnemonic_of;
use crate::span::Span;
use crate::text::{Field, Text};
use number::digits::digits_before;

impl<'a> Field<'a> {
    /// The part of the line that the field is.
    pub fn text(&self) -> Text<'a>
        ensures { result ≡ text_of self.now }
    {
        match self {
            Field::Prefix(text)
            | Field::Mnemonic(text)
            | Field::Parameter(text)
            | Field::Question(text) => *text,
        }
    }
}

/// The digits that a part begins with, and what follows them.
fn take_prefix<'a>(text: Span<'a>) -> (Option<Field<'a>>, Span<'a>)
    ensures prefix { option_map seen result.0 ≡ prefix_of (seen_span text.entry) }
    ensures body { seen_span result.1 ≡ body_of (seen_span text.entry) }
    ensures within { result.1.column + length result.1.bytes.now ≤ text.entry.column + length text.entry.bytes.now }
{
    let n = digits_before(text.bytes);
    let body = text.past(n).trim();
    if n == 0 {
        return (None, body);
    }
    (Some(Field::Prefix(text.first(n).text())), body)
}

/// Reads what follows the prefix of a command: two letters, and the rest.
fn read_body<'a>(column: usize, prefix: Option<Field<'a>>, body: Span<'a>) -> Command<'a>
    ensures command { said result ≡ made column (option_map seen prefix.entry) (seen_span body.entry) (bare (past 2 (seen_span body.entry))) }
    ensures column { result.column ≡ column }
    ensures within { result.rest.column + length result.rest.bytes.now ≤ body.entry.column + length body.entry.bytes.now }
{
    let [a, b, ..] = body.bytes else {
        return Command {
            column,
            prefix,
            letters: None,
            mnemonic: None,
            rest: body.first(0).text(),
        };
    };
    Command {
        column,
        prefix,
        letters: Some(Field::Mnemonic(body.first(2).text())),
        mnemonic: mnemonic_of(*a, *b),
        rest: body.past(2).trim().text(),
    }
}

/// Reads a part without blanks around it as a command.
#[tactic(auto, unfolding(crate::specs::Commands::command_of))]
pub(crate) fn read_command<'a>(text: Span<'a>) -> Command<'a>
    ensures command { said result ≡ command_of (seen_span text.entry) }
    ensures column { result.column ≡ text.entry.column }
    ensures within { result.rest.column + length result.rest.bytes.now ≤ text.entry.column + length text.entry.bytes.now }
{
    let (prefix, body) = take_prefix(text);
    read_body(text.column, prefix, body)
}
