use crate::axis::{EasingAxis, WholeAxis};

// An axis of any kind. An enum, since the kind of a drive is chosen when the program runs.
#[derive(Clone, Copy)]
pub enum AxisKind {
    Whole(WholeAxis),
    Easing(EasingAxis),
}
