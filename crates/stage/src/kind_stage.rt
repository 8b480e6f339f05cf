ghost use Rattle.stage.specs.Kinds.{kind_axis};
ghost use Rattle.stage.specs.Sounds.{kind_sound};

use crate::kind::AxisKind;
use crate::stage::Stage;
use crate::state::AxisState;
use drive::{DriveRefusal, Profile};

impl Stage for AxisKind {
    ghost axis = { kind_axis };

    ghost sound = { λ a. kind_sound a };

    fn state(&self) -> AxisState {
        match self {
            AxisKind::Whole(axis) => axis.state(),
            AxisKind::Easing(axis) => axis.state(),
        }
    }

    fn power_on(&mut self) -> Result<(), DriveRefusal> {
        match self {
            AxisKind::Whole(axis) => axis.power_on(),
            AxisKind::Easing(axis) => axis.power_on(),
        }
    }

    fn power_off(&mut self) -> Result<(), DriveRefusal> {
        match self {
            AxisKind::Whole(axis) => axis.power_off(),
            AxisKind::Easing(axis) => axis.power_off(),
        }
    }

    fn start(&mut self, target: i32, profile: Profile) -> Result<(), DriveRefusal> {
        match self {
            AxisKind::Whole(axis) => axis.start(target, profile),
            AxisKind::Easing(axis) => axis.start(target, profile),
        }
    }

    fn stop(&mut self) -> Result<(), DriveRefusal> {
        match self {
            AxisKind::Whole(axis) => axis.stop(),
            AxisKind::Easing(axis) => axis.stop(),
        }
    }

    fn set_position(&mut self, position: i32) -> Result<(), DriveRefusal> {
        match self {
            AxisKind::Whole(axis) => axis.set_position(position),
            AxisKind::Easing(axis) => axis.set_position(position),
        }
    }

    fn tick(&mut self) {
        match self {
            AxisKind::Whole(axis) => axis.tick(),
            AxisKind::Easing(axis) => axis.tick(),
        }
    }
}
