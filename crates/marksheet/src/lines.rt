ghost use Rattle.std.specs.Prelude.{◌≡◌, ◌<◌, ◌≤◌, true, [], length, slice_index, MatchOption, ℕ, false};
ghost use Rattle.marksheet.specs.Cutting.{ends_line, behind_line};

const LF: u8 = b'\n';

const CR: u8 = b'\r';

fn ends_line(b: u8) -> bool
    ensures { result ≡ ends_line b }
{
    matches!(b, LF | CR)
}

/// How many bytes stand before the first that ends a line.
fn line_length(text: &[u8]) -> usize
    ensures within { result ≤ length text.now }
    ensures plain { (k : ℕ) → k < result → ends_line (slice_index text.now k) ≡ false }
    ensures stops { result < length text.now → ends_line (slice_index text.now result) ≡ true }
{
    text.iter()
        .position(|b| ends_line(*b))
        .unwrap_or(text.len())
}

/// What stands behind the end of a line, CR and LF or one byte, with which a text begins.
fn behind_end(text: &[u8]) -> &[u8]
    requires { 0 < length text.now → ends_line (slice_index text.now 0) ≡ true }
    ensures behind { result.now ≡ behind_line text.now }
    ensures less { 0 < length text.now → length result.now < length text.now }
{
    match text {
        [CR, LF, rest @ ..] | [_, rest @ ..] => rest,
        [] => text,
    }
}

/// The lines of a text, without their ends.
#[derive(Drop)]
pub struct Lines<'a> {
    rest: &'a [u8],
}

impl<'a> Lines<'a> {
    pub fn of(text: &'a [u8]) -> Lines<'a>
        ensures { result.rest.now ≡ text.now }
    {
        Lines { rest: text }
    }
}

impl<'a> Iterator for Lines<'a> {
    type Item = &'a [u8];

    ghost use Rattle.std.specs.Iterator.{at_most};
    ghost use Rattle.marksheet.specs.Cutting.{CutsFirst};

    ghost next_gives = { λ s line t. MatchOption line ((s.rest.now ≡ []) × (t.rest.now ≡ [])) (λ l. CutsFirst s.rest.now l.now t.rest.now) };

    ghost remaining = { λ s. at_most (length s.rest.now) };

    #[tactic(auto, using(crate::proofs::Cuts::line_front, crate::proofs::Cuts::behind_stopped))]
    fn next(&mut self) -> Option<&'a [u8]> {
        if self.rest.is_empty() {
            return None;
        }
        let (line, end) = self.rest.split_at(line_length(self.rest));
        self.rest = behind_end(end);
        Some(line)
    }
}
