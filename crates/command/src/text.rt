// Parts of a line that borrow it.

/// A part of a line: its bytes, and the column of the first, counted from 1.
#[derive(Clone, Copy)]
pub struct Text<'a> {
    pub bytes: &'a [u8],
    pub column: usize,
}

/// A field of a command.
#[derive(Clone, Copy)]
pub enum Field<'a> {
    /// The number in front.
    Prefix(Text<'a>),
    /// The two letters.
    Mnemonic(Text<'a>),
    /// What stands between commas, without the blanks around it, and possibly nothing.
    Parameter(Text<'a>),
    /// A question mark alone.
    Question(Text<'a>),
}
