// The figures of a start: velocity in micro-units per second, acceleration and deceleration in micro-units per second squared.
#[derive(Clone, Copy, PartialEq, Eq, Debug, Default)]
pub struct Profile {
    pub velocity: u32,
    pub acceleration: u32,
    pub deceleration: u32,
}
