ghost use Rattle.std.specs.Prelude.{◌≡◌, ◌+◌, ◌<◌, ◌⊎◌, map, Result, MatchResult};
ghost use Rattle.std.specs.Fn.{FnOnceReturnsAtMut};
ghost use Rattle.drive.specs.declared.refusal.DriveRefusal.{DriveRefusal};
ghost use Rattle.drive.specs.declared.refusal.DriveRefusal.TheVariants.{NoSuchAxis};
ghost use Rattle.drive.specs.Model.{Axis, Change, SoundAxis, ask_axis, at_axis, tick_axes};
ghost use Rattle.bank.specs.Arrays.{table_sound};
ghost use Rattle.bank.specs.Banks.{bank_axes};
ghost use Rattle.stage.specs.declared.kind.AxisKind.{AxisKind};
ghost use Rattle.stage.specs.Kinds.{kind_axis};
ghost use Rattle.stage.specs.Sounds.{kind_sound};
ghost use Rattle.stage.specs.Stages.{state_of};

use crate::bank::Bank;
use drive::{Drive, DriveRefusal, Profile};
use stage::{AxisKind, AxisState, Stage};

impl Bank {
    // The place in the array of the axis of that number, if there is one.
    fn index(&self, axis: usize) -> Result<usize, DriveRefusal>
        ensures { MatchResult result (λ i. (i < self.now.count) × (axis ≡ i + 1)) (λ e. (e ≡ NoSuchAxis) × ((axis < 1) ⊎ (self.now.count < axis))) }
    {
        match axis.checked_sub(1) {
            Some(i) if i < self.count => Ok(i),
            _ => Err(DriveRefusal::NoSuchAxis),
        }
    }

    // What an axis answers about itself, by its number.
    #[tactic(auto, using(crate::specs::Arrays::told_some, stage::specs::Sounds::kind_sound))]
    fn ask<T, F: FnOnce(AxisState) -> T>(&self, axis: usize, answer: F) -> Result<T, DriveRefusal>
        requires { F.IsAlwaysCallable answer }
        ensures { (f : Axis → T) → ((a : Axis) (r : T) → SoundAxis a → F.post answer (state_of a) r → r ≡ f a) → result ≡ ask_axis f axis (bank_axes self.now) }
    {
        let i = self.index(axis)?;
        Ok(answer(self.axes[i].state()))
    }

    // What a call of an axis answers, by its number; the other axes are kept.
    #[tactic(auto, using(crate::specs::Arrays::changed_ok))]
    fn change<F: FnOnce(&mut AxisKind) -> Result<(), DriveRefusal>>(
        &mut self,
        axis: usize,
        call: F,
    ) -> Result<(), DriveRefusal>
        requires { F.IsAlwaysCallable call }
        ensures { (f : Change) → ((x y : AxisKind) (r : Result Unit DriveRefusal) → FnOnceReturnsAtMut F.FnOnce call x r y → (r, kind_axis y) ≡ f (kind_axis x)) → (result, bank_axes self.new) ≡ at_axis f axis (bank_axes self.old) }
    {
        let i = self.index(axis)?;
        let axes = &mut self.axes;
        call(&mut axes[i])
    }
}

// Each of the axes ticks.
#[tactic(auto, using(crate::specs::Arrays::tick_next))]
fn tick_each(axes: &mut [AxisKind])
    ensures { map kind_axis axes.new ≡ tick_axes (map kind_axis axes.old) }
{
    for axis in axes.iter_mut() {
        axis.tick();
    }
}

impl Drive for Bank {
    ghost axes = { bank_axes };

    ghost sound = { λ d. table_sound kind_axis kind_sound d.count d.axes d.least d.most d.room };

    #[tactic(auto, using(crate::specs::Arrays::view_length))]
    fn axis_count(&self) -> usize {
        self.count
    }

    fn reach(&self, axis: usize) -> Result<u32, DriveRefusal> {
        self.ask(axis, |state| state.reach)
    }

    fn powered(&self, axis: usize) -> Result<bool, DriveRefusal> {
        self.ask(axis, |state| state.powered)
    }

    fn position(&self, axis: usize) -> Result<i32, DriveRefusal> {
        self.ask(axis, |state| state.position)
    }

    fn target(&self, axis: usize) -> Result<i32, DriveRefusal> {
        self.ask(axis, |state| state.target)
    }

    fn power_on(&mut self, axis: usize) -> Result<(), DriveRefusal> {
        self.change(axis, |one| one.power_on())
    }

    fn power_off(&mut self, axis: usize) -> Result<(), DriveRefusal> {
        self.change(axis, |one| one.power_off())
    }

    fn start(&mut self, axis: usize, target: i32, profile: Profile) -> Result<(), DriveRefusal> {
        self.change(axis, |one| one.start(target, profile))
    }

    fn stop(&mut self, axis: usize) -> Result<(), DriveRefusal> {
        self.change(axis, |one| one.stop())
    }

    fn set_position(&mut self, axis: usize, position: i32) -> Result<(), DriveRefusal> {
        self.change(axis, |one| one.set_position(position))
    }

    fn tick(&mut self) {
        // Not `&mut self.axes[..count]`: a part of an array field is not lent as `&mut` in a proof yet.
        let count = self.count;
        let axes = &mut self.axes;
        let (there, _) = axes.split_at_mut(count);
        tick_each(there);
    }
}
