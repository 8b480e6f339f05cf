// What a command asks for, and how desk and drive stand.
#![tactic(auto)]

mod case;
pub mod desk_view;
pub mod drive_view;
pub mod kinds;
pub mod naming;
pub mod values;
mod view;

pub use case::Case;
pub use view::View;
