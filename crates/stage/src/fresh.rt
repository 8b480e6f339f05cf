ghost use Rattle.std.specs.Prelude.{◌≡◌};
ghost use Rattle.stage.specs.Axes.{axis_of};
ghost use Rattle.stage.specs.Stages.{fresh_axis, nearest};

use crate::axis::SingleAxis;
use crate::coordinate::Coordinate;
use crate::travel::Travel;
use drive::Profile;

// A reach out of range acts as the nearest in range.
fn reach_taken(reach: u32) -> u32
    ensures { result ≡ nearest 1 2000000000 reach }
{
    reach.clamp(1, 2_000_000_000)
}

impl<P: Coordinate, R: Travel> SingleAxis<P, R> {
    // An axis without power at position 0.
    pub fn new(rule: R, reach: u32) -> Self
        ensures { axis_of R.travel result ≡ fresh_axis (R.travel rule) reach }
    {
        let origin = P::exact(0);
        SingleAxis {
            rule,
            powered: false,
            position: origin,
            target: origin,
            profile: Profile::default(),
            reach: reach_taken(reach),
        }
    }
}
