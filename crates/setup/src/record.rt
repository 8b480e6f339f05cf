// What a setup record says of one axis: velocities in micro-units per second, accelerations in micro-units per second
// squared, limits in micro-units.
#[derive(Clone, Copy, Default)]
pub struct SetupRecord {
    // the stage name, filled up with zero bytes
    pub name: [u8; 32],
    pub max_velocity: u32,
    pub max_acceleration: u32,
    pub left: i32,
    pub right: i32,
}
