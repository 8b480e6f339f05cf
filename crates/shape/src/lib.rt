// Whether a command names what is there, and has the parameters that it takes: each rule in a function of its own.
#![tactic(auto)]

mod axis_case;
mod desk_case;
pub mod entry;
pub mod naming;
pub mod parameters;

pub use axis_case::AxisCase;
