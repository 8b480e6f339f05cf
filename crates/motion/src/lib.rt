// Drives told to start, stop and tick; groups and waits.
// Desk and drive are two parameters wherever both may change: a struct that held two `&mut` would have to promise in each contract that
// it still holds the same two, which is no plainer.
#![tactic(auto)]

mod asking;
mod beating;
mod telling;
mod waiting;

pub use asking::{all_powered, all_rest, every_rests};
pub use beating::{advance, beat, beats};
pub use telling::{power_off_all, power_off_every, power_on_all, start_all, stop_all, stop_every};
pub use waiting::{wait_axis, wait_every, wait_group};
