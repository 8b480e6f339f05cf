ghost use Rattle.std.specs.Prelude.{◌≡◌, MatchOption};
ghost use Rattle.marksheet.specs.Choosing.{WritesUpTo, number_in};

/// That a word names nothing of what is asked for.
#[derive(Clone, Copy, PartialEq, Eq, Debug)]
pub struct UnknownWord;

/// The number that a text writes, 1 to the most that is allowed.
pub fn number_up_to(most: u32, text: &str) -> Option<u32>
    ensures { MatchOption result (¬ WritesUpTo most text.now) (λ n. WritesUpTo most text.now × (n ≡ number_in text.now)) }
{
    let number = text.parse().ok();
    number.filter(|n| (1..=most).contains(n))
}
