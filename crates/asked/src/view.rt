use desk::Desk;

/// A desk and a drive, looked at together.
#[derive_where(Clone, Copy)]
pub struct View<'a, D> {
    pub desk: &'a Desk,
    pub drive: &'a D,
}
