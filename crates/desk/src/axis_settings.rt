use drive::Profile;

// The settings of one axis.
#[derive(Clone, Copy, Default)]
pub struct AxisSettings {
    // the stage name, filled up with zero bytes
    pub name: [u8; 32],
    pub max_velocity: u32,
    pub max_acceleration: u32,
    pub left: i32,
    pub right: i32,
    // the profile of a start outside a group
    pub own: Profile,
    // how many digits of a position are shown behind the point
    pub digits: u8,
}
