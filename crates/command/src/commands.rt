// The commands of a line, one after another.
use crate::parts::Parts;

/// What is left of a line.
#[derive(Drop)]
pub struct Commands<'a> {
    pub(crate) rest: Parts<'a, b';'>,
}
