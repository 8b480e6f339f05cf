ghost use Rattle.std.specs.Prelude.{◌≡◌, List, length};
ghost use Rattle.drive.specs.Model.{Axis, Sound, ask_axis, at_axis, power_off_axis, power_on_axis, set_position_axis, start_axis, stop_axis, tick_axes};

use crate::profile::Profile;
use crate::refusal::DriveRefusal;

// A drive of 2 to 12 axes, numbered from 1. It means a list of axes: each contract gives the answer, and the whole list after the call.
// A refusal changes nothing, and a function for one axis touches no other.
pub trait Drive {
    ghost axes: { Self → List Axis };

    fn axis_count(&self) -> usize
        ensures { result ≡ length (axes self.now) };

    fn reach(&self, axis: usize) -> Result<u32, DriveRefusal>
        ensures { result ≡ ask_axis (λ a. a.reach) axis (axes self.now) };

    fn powered(&self, axis: usize) -> Result<bool, DriveRefusal>
        ensures { result ≡ ask_axis (λ a. a.powered) axis (axes self.now) };

    fn position(&self, axis: usize) -> Result<i32, DriveRefusal>
        ensures { result ≡ ask_axis (λ a. a.position) axis (axes self.now) };

    fn target(&self, axis: usize) -> Result<i32, DriveRefusal>
        ensures { result ≡ ask_axis (λ a. a.target) axis (axes self.now) };

    fn power_on(&mut self, axis: usize) -> Result<(), DriveRefusal>
        ensures { (result, axes self.new) ≡ at_axis power_on_axis axis (axes self.old) };

    fn power_off(&mut self, axis: usize) -> Result<(), DriveRefusal>
        ensures { (result, axes self.new) ≡ at_axis power_off_axis axis (axes self.old) };

    fn start(&mut self, axis: usize, target: i32, profile: Profile) -> Result<(), DriveRefusal>
        ensures { (result, axes self.new) ≡ at_axis (start_axis target profile) axis (axes self.old) };

    fn stop(&mut self, axis: usize) -> Result<(), DriveRefusal>
        ensures { (result, axes self.new) ≡ at_axis stop_axis axis (axes self.old) };

    fn set_position(&mut self, axis: usize, position: i32) -> Result<(), DriveRefusal>
        ensures { (result, axes self.new) ≡ at_axis (set_position_axis position) axis (axes self.old) };

    fn tick(&mut self)
        ensures { axes self.new ≡ tick_axes (axes self.old) };

    ghost sound: { (d : Self) → Sound (axes d) };
}
