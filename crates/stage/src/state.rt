// What an axis answers about itself.
#[derive(Clone, Copy, PartialEq, Eq, Debug)]
pub struct AxisState {
    pub powered: bool,
    pub position: i32,
    pub target: i32,
    pub reach: u32,
}
