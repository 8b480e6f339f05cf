// The parameters of a command, one after another.
use crate::parts::Parts;

/// What is left of the parameters.
#[derive(Drop)]
pub struct Parameters<'a> {
    pub(crate) rest: Parts<'a, b','>,
}
