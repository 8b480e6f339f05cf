// One axis of a modelled drive: instant, stepping or easing.
#![tactic(auto)]

mod axis;
mod axis_stage;
mod coordinate;
mod ease;
mod easing;
mod fresh;
mod kind;
mod kind_stage;
mod rule;
mod stage;
mod state;
mod travel;

pub use axis::{EasingAxis, SingleAxis, WholeAxis};
pub use coordinate::Coordinate;
pub use ease::Ease;
pub use kind::AxisKind;
pub use rule::Rule;
pub use stage::Stage;
pub use state::AxisState;
pub use travel::Travel;
