ghost use Rattle.std.specs.Prelude.{◌≡◌};
ghost use Rattle.drive.specs.Mirror.{facing, facing_answer, mirrored};
ghost use Rattle.drive.specs.Model.{at_axis, set_position_axis, start_axis};
ghost use Rattle.drive.specs.Mirrors.{mirrored_sound};

use crate::drive::Drive;
use crate::profile::Profile;
use crate::refusal::DriveRefusal;
use crate::reversed::Reversed;

impl<D> Reversed<D> {
    pub fn new(below: D, axis: usize) -> Self
        ensures { result ≡ record { below = below; axis = axis } }
    {
        Reversed { below, axis }
    }

    // A position of an axis on one side of the mounting, as it is on the other side.
    fn face(&self, axis: usize, position: i32) -> i32
        ensures { result ≡ facing self.now.axis axis position }
    {
        if axis == self.axis {
            position.saturating_neg()
        } else {
            position
        }
    }

    fn face_answer(
        &self,
        axis: usize,
        answer: Result<i32, DriveRefusal>,
    ) -> Result<i32, DriveRefusal>
        ensures { result ≡ facing_answer self.now.axis axis answer }
    {
        answer.map(|position| self.face(axis, position))
    }
}

// What the drive below is told where a call names a position.
impl<D: Drive> Reversed<D> {
    // This and the next stay functions of their own: within the trait's method each closes only by an answer file,
    // where a planted bug would show in the proof and not in the code.
    fn start_below(
        &mut self,
        axis: usize,
        target: i32,
        profile: Profile,
    ) -> Result<(), DriveRefusal>
        ensures told { (result, D.Drive.axes self.new.below) ≡ at_axis (start_axis (facing self.old.axis axis target) profile) axis (D.Drive.axes self.old.below) }
        ensures kept { self.new.axis ≡ self.old.axis }
    {
        let target = self.face(axis, target);
        self.below.start(axis, target, profile)
    }

    fn set_position_below(&mut self, axis: usize, position: i32) -> Result<(), DriveRefusal>
        ensures told { (result, D.Drive.axes self.new.below) ≡ at_axis (set_position_axis (facing self.old.axis axis position)) axis (D.Drive.axes self.old.below) }
        ensures kept { self.new.axis ≡ self.old.axis }
    {
        let position = self.face(axis, position);
        self.below.set_position(axis, position)
    }
}

impl<D: Drive> Drive for Reversed<D> {
    ghost axes = { λ r. mirrored r.axis (D.Drive.axes r.below) };

    ghost sound = { λ d. mirrored_sound d.axis (D.Drive.axes d.below) (D.Drive.sound d.below) };

    #[tactic(auto, using(crate::specs::Mirrors::length_mirrored))]
    fn axis_count(&self) -> usize {
        self.below.axis_count()
    }

    #[tactic(auto, using(crate::specs::Mirrors::reach_kept))]
    fn reach(&self, axis: usize) -> Result<u32, DriveRefusal> {
        self.below.reach(axis)
    }

    #[tactic(auto, using(crate::specs::Mirrors::powered_kept))]
    fn powered(&self, axis: usize) -> Result<bool, DriveRefusal> {
        self.below.powered(axis)
    }

    #[tactic(auto, using(crate::specs::Mirrors::position_faced))]
    fn position(&self, axis: usize) -> Result<i32, DriveRefusal> {
        self.face_answer(axis, self.below.position(axis))
    }

    #[tactic(auto, using(crate::specs::Mirrors::target_faced))]
    fn target(&self, axis: usize) -> Result<i32, DriveRefusal> {
        self.face_answer(axis, self.below.target(axis))
    }

    #[tactic(auto, using(crate::specs::Mirrors::power_on_through))]
    fn power_on(&mut self, axis: usize) -> Result<(), DriveRefusal> {
        self.below.power_on(axis)
    }

    #[tactic(auto, using(crate::specs::Mirrors::power_off_through))]
    fn power_off(&mut self, axis: usize) -> Result<(), DriveRefusal> {
        self.below.power_off(axis)
    }

    fn start(&mut self, axis: usize, target: i32, profile: Profile) -> Result<(), DriveRefusal> {
        self.start_below(axis, target, profile)
    }

    #[tactic(auto, using(crate::specs::Mirrors::stop_through))]
    fn stop(&mut self, axis: usize) -> Result<(), DriveRefusal> {
        self.below.stop(axis)
    }

    fn set_position(&mut self, axis: usize, position: i32) -> Result<(), DriveRefusal> {
        self.set_position_below(axis, position)
    }

    #[tactic(auto, using(crate::specs::Mirrors::ticks_through))]
    fn tick(&mut self) {
        self.below.tick();
    }
}
