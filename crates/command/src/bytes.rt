// Blanks and separators.
ghost use Rattle.std.specs.Prelude.{◌≡◌, ◌+◌, ◌≤◌, length, IfSome};
ghost use Rattle.std.specs.List.{prefix_len, suffix_len};
ghost use Rattle.std.specs.Option.{option_map};
ghost use Rattle.command.specs.Lines.{blank, apart, bare, front, past, behind};
ghost use Rattle.command.specs.Held.{seen_span};
ghost use Rattle.command.specs.Views.{seen_text};

use crate::span::Span;
use crate::text::Text;

/// How many bytes stand before the first separator.
pub(crate) fn before(text: &[u8], separator: u8) -> usize
    ensures count { result ≡ prefix_len (apart separator) text.now }
    ensures within { result ≤ length text.now }
{
    text.iter().take_while(|b| **b != separator).count()
}

/// Whether a byte is a blank.
fn is_blank(byte: u8) -> bool
    ensures { result ≡ blank byte }
{
    byte == b' '
}

/// How many blanks a text begins with.
fn blanks_before(text: &[u8]) -> usize
    ensures count { result ≡ prefix_len blank text.now }
    ensures within { result ≤ length text.now }
{
    text.iter().take_while(|b| is_blank(**b)).count()
}

/// How many blanks a text ends with.
fn blanks_behind(text: &[u8]) -> usize
    ensures count { result ≡ suffix_len blank text.now }
    ensures within { result ≤ length text.now }
{
    text.iter().rev().take_while(|b| is_blank(**b)).count()
}

impl<'a> Span<'a> {
    /// The part as it is handed out.
    pub(crate) fn text(self) -> Text<'a>
        ensures part { seen_text result ≡ seen_span self.entry }
        ensures end { result.column + length result.bytes.now ≡ self.entry.column + length self.entry.bytes.now }
    {
        Text {
            bytes: self.bytes,
            column: self.column,
        }
    }

    /// The first `n` bytes.
    pub(crate) fn first(self, n: usize) -> Span<'a>
        requires { n ≤ length self.bytes.now }
        ensures part { seen_span result ≡ front n (seen_span self.entry) }
        ensures end { result.column + length result.bytes.now ≡ self.entry.column + n }
    {
        Span {
            bytes: &self.bytes[..n],
            column: self.column,
        }
    }

    /// What follows the first `n` bytes.
    pub(crate) fn past(self, n: usize) -> Span<'a>
        requires { n ≤ length self.bytes.now }
        ensures part { seen_span result ≡ past n (seen_span self.entry) }
        ensures end { result.column + length result.bytes.now ≡ self.entry.column + length self.entry.bytes.now }
    {
        Span {
            bytes: &self.bytes[n..],
            column: self.column + n,
        }
    }

    /// What follows the byte at `n`, if there is one.
    pub(crate) fn behind(self, n: usize) -> Option<Span<'a>>
        ensures part { option_map seen_span result ≡ behind n (seen_span self.entry) }
        ensures end { IfSome result (λ t. t.column + length t.bytes.now ≡ self.entry.column + length self.entry.bytes.now) }
    {
        if n < self.bytes.len() {
            Some(self.past(n + 1))
        } else {
            None
        }
    }

    /// The part without the blanks around it.
    pub(crate) fn trim(self) -> Span<'a>
        ensures part { seen_span result ≡ bare (seen_span self.entry) }
        ensures within { result.column + length result.bytes.now ≤ self.entry.column + length self.entry.bytes.now }
    {
        let text = self.past(blanks_before(self.bytes));
        text.first(text.bytes.len() - blanks_behind(text.bytes))
    }
}
