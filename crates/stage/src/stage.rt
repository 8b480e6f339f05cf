ghost use Rattle.std.specs.Prelude.{◌≡◌};
ghost use Rattle.drive.specs.Model.{Axis, SoundAxis, power_off_axis, power_on_axis, set_position_axis, start_axis, stop_axis, tick_axis};
ghost use Rattle.stage.specs.Stages.{state_of};

use crate::state::AxisState;
use drive::{DriveRefusal, Profile};

// One axis of a modelled drive. Each contract gives the answer, and the whole axis after the call.
pub trait Stage: Copy {
    ghost axis: { Self → Axis };

    fn state(&self) -> AxisState
        ensures { result ≡ state_of (axis self.now) };

    fn power_on(&mut self) -> Result<(), DriveRefusal>
        ensures { (result, axis self.new) ≡ power_on_axis (axis self.old) };

    fn power_off(&mut self) -> Result<(), DriveRefusal>
        ensures { (result, axis self.new) ≡ power_off_axis (axis self.old) };

    fn start(&mut self, target: i32, profile: Profile) -> Result<(), DriveRefusal>
        ensures { (result, axis self.new) ≡ start_axis target profile (axis self.old) };

    fn stop(&mut self) -> Result<(), DriveRefusal>
        ensures { (result, axis self.new) ≡ stop_axis (axis self.old) };

    fn set_position(&mut self, position: i32) -> Result<(), DriveRefusal>
        ensures { (result, axis self.new) ≡ set_position_axis position (axis self.old) };

    fn tick(&mut self)
        ensures { axis self.new ≡ tick_axis (axis self.old) };

    ghost sound: { (s : Self) → SoundAxis (axis s) };
}
