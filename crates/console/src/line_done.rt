/// What an accepted line came to.
#[derive(Clone, Copy, PartialEq, Eq, Debug)]
pub struct LineDone {
    /// The bytes taken, the CR counted.
    pub taken: usize,
    /// The reply bytes written.
    pub written: usize,
}
