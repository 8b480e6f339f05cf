ghost use Rattle.std.specs.Prelude.{◌≡◌, [], ◌∷◌};
ghost use Rattle.rules.specs.Refusals.{needs, entry, where_so};
ghost use Rattle.shape.specs.Verdicts.{judged};

use queue::{ErrorEntry, Fault};

/// A test: where it fails, the fault stands in the error queue with the column.
pub fn test(passes: bool, fault: Fault, column: usize) -> Result<(), ErrorEntry>
    ensures { result ≡ judged (needs passes (entry fault column) ∷ []) }
{
    if passes {
        Ok(())
    } else {
        Err(ErrorEntry { fault, column })
    }
}

/// A test of a rule that may not apply.
pub fn test_where(
    applies: bool,
    passes: bool,
    fault: Fault,
    column: usize,
) -> Result<(), ErrorEntry>
    ensures { result ≡ judged (where_so applies (needs passes (entry fault column) ∷ [])) }
{
    test(!applies || passes, fault, column)
}
