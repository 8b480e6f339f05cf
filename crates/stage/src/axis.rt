ghost use Rattle.std.specs.Prelude.{◌≡◌, ◌≤◌, true, false, unsigned_abs, ⊤};

use crate::coordinate::Coordinate;
use crate::ease::Ease;
use crate::rule::Rule;
use drive::Profile;
use std::alloc::AllocError;

// An axis that keeps its position and target as numbers of the type `P`, and travels by a rule.
pub struct SingleAxis<P: Coordinate, R> {
    pub(crate) rule: R,
    pub(crate) powered: bool,
    pub(crate) position: P,
    pub(crate) target: P,
    pub(crate) profile: Profile,
    pub(crate) reach: u32,
    ghost some_reach: { 1 ≤ reach },
    ghost most_reach: { reach ≤ 2000000000 },
    ghost position_whole: { P.valid position ≡ true },
    ghost position_in: { unsigned_abs (P.whole position) ≤ reach },
    ghost target_whole: { P.valid target ≡ true },
    ghost target_in: { unsigned_abs (P.whole target) ≤ reach },
    ghost unpowered: { powered ≡ false → P.whole target ≡ P.whole position },
}

// By hand: `Clone` cannot be derived here, since ghost fields cite the members of a bound.
impl<P: Coordinate, R: Copy> Clone for SingleAxis<P, R> {
    ghost is_clone = { λ a b. a ≡ b };

    ghost is_infallible = { λ _. ⊤ };

    fn clone(&self) -> Result<Self, AllocError> {
        Ok(*self)
    }
}

impl<P: Coordinate, R: Copy> Copy for SingleAxis<P, R> {}

// An axis in whole numbers.
pub type WholeAxis = SingleAxis<i32, Rule>;

// An axis in f64 numbers that are whole.
pub type EasingAxis = SingleAxis<f64, Ease>;
