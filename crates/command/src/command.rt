// A command of a line.
use crate::mnemonic::Mnemonic;
use crate::text::{Field, Text};

/// A command taken apart.
#[derive(Clone, Copy)]
pub struct Command<'a> {
    /// The column of its first byte that is no blank.
    pub column: usize,
    /// The digits in front, if there are any.
    pub prefix: Option<Field<'a>>,
    /// The two bytes that should name it, if there are two.
    pub letters: Option<Field<'a>>,
    /// What they name; nothing where they name no command.
    pub mnemonic: Option<Mnemonic>,
    /// What follows, without the blanks around it.
    pub rest: Text<'a>,
}
