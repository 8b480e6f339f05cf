ghost use Rattle.std.specs.Prelude.{◌≡◌, ℕ};

// What a queue can hold. Each kind of entry states the greatest number that may wait.
pub trait Entry: Copy {
    const MOST: usize;

    // `MOST` to a clause
    ghost most: { ℕ };

    fn limit() -> usize
        ensures { result ≡ most };
}
