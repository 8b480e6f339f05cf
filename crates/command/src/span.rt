// Parts of a line while it is read.
ghost use Rattle.std.specs.Prelude.{◌+◌, ◌^◌, ◌≤◌, length};

/// A part of a line that ends at column 2^63 at the latest, as every part of a line in memory does: its columns are counted without
/// overflow.
#[derive(Clone, Copy)]
pub(crate) struct Span<'a> {
    pub(crate) bytes: &'a [u8],
    pub(crate) column: usize,
    ghost countable: { column + length bytes.now ≤ 2 ^ 63 },
}
