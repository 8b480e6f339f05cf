// A text part by part.
ghost use Rattle.std.specs.Prelude.{◌+◌, ◌<◌, ◌≤◌, length, IfSome};
ghost use Rattle.std.specs.Iterator.{YieldsFirstBy, MakesProgress, item_count};
ghost use Rattle.command.specs.Held.{seen_span, parts_in, end_behind, limit_behind, left_of};

use crate::bytes::before;
use crate::span::Span;

/// The parts of a text between separators that are still to come; the last is followed by none.
#[derive(Drop)]
pub(crate) struct Parts<'a, const SEPARATOR: u8> {
    pub(crate) rest: Option<Span<'a>>,
}

impl<'a, const SEPARATOR: u8> Iterator for Parts<'a, SEPARATOR> {
    type Item = Span<'a>;

    ghost next_gives = { YieldsFirstBy seen_span (λ s. parts_in SEPARATOR s.rest) };

    ghost remaining = { item_count (λ s. parts_in SEPARATOR s.rest) };

    #[tactic(auto, using(crate::proofs::Parted::parts_cut))]
    fn next(&mut self) -> Option<Span<'a>>
        ensures steps { YieldsFirstBy seen_span (λ s. parts_in SEPARATOR s.rest) self.old result self.new }
        ensures goes { MakesProgress (λ _. Unit {0}) (item_count (λ s. parts_in SEPARATOR s.rest)) self.old result self.new }
        ensures within { IfSome result (λ t. t.column + length t.bytes.now ≤ end_behind self.old.rest) }
        ensures before { IfSome result (λ t. t.column + length t.bytes.now < limit_behind self.old.rest) }
        ensures end { end_behind self.new.rest ≤ end_behind self.old.rest }
        ensures limit { limit_behind self.new.rest ≤ limit_behind self.old.rest }
        ensures used { IfSome result (λ t. left_of self.new + (length t.bytes.now + 1) ≤ left_of self.old) }
    {
        let rest = self.rest?;
        let n = before(rest.bytes, SEPARATOR);
        self.rest = rest.behind(n);
        Some(rest.first(n))
    }
}
