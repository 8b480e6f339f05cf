// What the console keeps: the settings of the axes, the groups, and the errors that wait.
#![tactic(auto)]

mod axis_settings;
mod axis_settings_calls;
mod desk_forming;
mod desk_groups;
mod desk_settings;
mod desk_state;
mod opening;
mod profiles;
mod state;

pub use axis_settings::AxisSettings;
pub use desk_state::Desk;
pub use state::State;
