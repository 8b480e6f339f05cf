ghost use Rattle.stage.specs.Axes.{axis_of};
ghost use Rattle.stage.specs.Sounds.{axis_sound};

use crate::axis::SingleAxis;
use crate::coordinate::Coordinate;
use crate::stage::Stage;
use crate::state::AxisState;
use crate::travel::Travel;
use drive::{DriveRefusal, Profile};

impl<P: Coordinate, R: Travel> Stage for SingleAxis<P, R> {
    ghost axis = { axis_of R.travel };

    ghost sound = { axis_sound R.travel R.fair };

    fn state(&self) -> AxisState {
        AxisState {
            powered: self.powered,
            position: self.position.to_whole(),
            target: self.target.to_whole(),
            reach: self.reach,
        }
    }

    fn power_on(&mut self) -> Result<(), DriveRefusal> {
        self.powered = true;
        Ok(())
    }

    fn power_off(&mut self) -> Result<(), DriveRefusal> {
        let stopped = self.stop();
        self.powered = false;
        stopped
    }

    fn start(&mut self, target: i32, profile: Profile) -> Result<(), DriveRefusal> {
        if !self.powered {
            return Err(DriveRefusal::PowerOff);
        }
        if target.unsigned_abs() > self.reach {
            return Err(DriveRefusal::OutOfReach);
        }
        self.target = P::exact(target);
        self.profile = profile;
        Ok(())
    }

    fn stop(&mut self) -> Result<(), DriveRefusal> {
        self.target = self.position;
        Ok(())
    }

    fn set_position(&mut self, position: i32) -> Result<(), DriveRefusal> {
        if self.position.to_whole() != self.target.to_whole() {
            return Err(DriveRefusal::Moving);
        }
        if position.unsigned_abs() > self.reach {
            return Err(DriveRefusal::OutOfReach);
        }
        let position = P::exact(position);
        self.position = position;
        self.target = position;
        Ok(())
    }

    fn tick(&mut self) {
        let position = self.rule.travelled(
            self.position.to_whole(),
            self.target.to_whole(),
            self.profile,
        );
        self.position = P::exact(position);
    }
}
