ghost use Rattle.std.specs.Prelude.{◌≡◌, ◌≤◌, length, Some, None};
ghost use Rattle.std.specs.Fn.{FnOnceReturnsAtMut};
ghost use Rattle.desk.specs.Tables.{there, row};
ghost use Rattle.desk.specs.Desks.{model_of, on_axis, velocity_set, acceleration_set, deceleration_set, left_set, right_set, digits_set};

use crate::axis_settings::AxisSettings;
use crate::desk_state::Desk;

impl Desk {
    pub fn axis_count(&self) -> usize
        ensures value { result ≡ length (model_of self.now).axes }
        ensures few { result ≤ 12 }
    {
        self.axes.len()
    }

    // Whether there is such an axis, counted from 1.
    pub(crate) fn has_axis(&self, axis: usize) -> bool
        ensures { result ≡ there axis (model_of self.now).axes }
    {
        (1..=self.axes.len()).contains(&axis)
    }

    // The settings of an axis, counted from 1.
    #[tactic(auto, using(crate::proofs::Changes::row_before, crate::proofs::Changes::short_get))]
    pub fn axis(&self, axis: usize) -> Option<AxisSettings>
        ensures value { result ≡ row axis (model_of self.now).axes }
        ensures digits { elim result [ Some a ↦ a.digits ≤ 6 | None ↦ Unit {0} ] }
    {
        self.axes.get(axis.checked_sub(1)?)
    }

    // The six settings that change. Where there is no such axis, the answer is false and nothing changes.

    // `change` makes other settings of an axis; where it computes f, the table shows f of that row alone.
    fn change<F: FnOnce(&mut AxisSettings)>(&mut self, axis: usize, change: F) -> bool
        requires callable { F.IsAlwaysCallable change }
        requires digits { (a b : AxisSettings) → a.digits ≤ 6 → FnOnceReturnsAtMut F.FnOnce change a tt b → b.digits ≤ 6 }
        ensures { (f : AxisSettings → AxisSettings) → ((a b : AxisSettings) → FnOnceReturnsAtMut F.FnOnce change a tt b → b ≡ f a) → (result, model_of self.new) ≡ on_axis f axis (model_of self.old) }
    {
        let Some(mut settings) = self.axis(axis) else {
            return false;
        };
        change(&mut settings);
        self.axes.set(axis - 1, settings);
        true
    }

    pub fn set_velocity(&mut self, axis: usize, velocity: u32) -> bool
        ensures { (result, model_of self.new) ≡ velocity_set axis velocity (model_of self.old) }
    {
        self.change(axis, |a| a.own.velocity = velocity)
    }

    pub fn set_acceleration(&mut self, axis: usize, acceleration: u32) -> bool
        ensures { (result, model_of self.new) ≡ acceleration_set axis acceleration (model_of self.old) }
    {
        self.change(axis, |a| a.own.acceleration = acceleration)
    }

    pub fn set_deceleration(&mut self, axis: usize, deceleration: u32) -> bool
        ensures { (result, model_of self.new) ≡ deceleration_set axis deceleration (model_of self.old) }
    {
        self.change(axis, |a| a.own.deceleration = deceleration)
    }

    pub fn set_left(&mut self, axis: usize, left: i32) -> bool
        ensures { (result, model_of self.new) ≡ left_set axis left (model_of self.old) }
    {
        self.change(axis, |a| a.left = left)
    }

    pub fn set_right(&mut self, axis: usize, right: i32) -> bool
        ensures { (result, model_of self.new) ≡ right_set axis right (model_of self.old) }
    {
        self.change(axis, |a| a.right = right)
    }

    // False for more than 6 digits, too.
    pub fn set_digits(&mut self, axis: usize, digits: u8) -> bool
        ensures { (result, model_of self.new) ≡ digits_set axis digits (model_of self.old) }
    {
        if digits > 6 {
            return false;
        }
        self.change(axis, |a| a.digits = digits)
    }
}
