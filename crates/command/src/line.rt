// The line at the front of what came in.
ghost use Rattle.std.specs.Prelude.{◌≡◌};
ghost use Rattle.std.specs.Option.{option_map};
ghost use Rattle.command.specs.Lines.{line_of};
ghost use Rattle.command.specs.Views.{seen_line};

use crate::bytes::before;

/// A line: its bytes, and how many bytes it takes up with the CR that ends it.
#[derive(Clone, Copy)]
pub struct Line<'a> {
    pub bytes: &'a [u8],
    pub taken: usize,
}

/// The line that ends at the first CR, if there is one.
pub fn first_line(input: &[u8]) -> Option<Line<'_>>
    ensures { option_map seen_line result ≡ line_of input.now }
{
    let n = before(input, b'\r');
    if n == input.len() {
        return None;
    }
    Some(Line {
        bytes: &input[0..n],
        taken: n + 1,
    })
}
