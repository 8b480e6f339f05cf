ghost use Rattle.std.specs.Prelude.{◌≡◌, ◌≤◌, length, ⊤};

use std::alloc::AllocError;

// The items that are held are the first `len`, in order; behind them stand unused ones.
pub struct FixedList<T, const N: usize> {
    pub(crate) items: [T; N],
    pub(crate) len: usize,
    ghost room: { length items ≡ N },
    ghost few: { len ≤ N },
}

impl<T: Copy, const N: usize> Copy for FixedList<T, N> {}

impl<T: Copy, const N: usize> Clone for FixedList<T, N> {
    ghost is_clone = { λ x y. y ≡ x };

    ghost is_infallible = { λ _. ⊤ };

    fn clone(&self) -> Result<FixedList<T, N>, AllocError> {
        Ok(*self)
    }
}
