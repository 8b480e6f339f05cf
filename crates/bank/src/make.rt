ghost use Rattle.std.specs.Prelude.{◌≡◌, replicate};
ghost use Rattle.stage.specs.Easing.{easing_travel};
ghost use Rattle.stage.specs.Kinds.{kind_axis};
ghost use Rattle.stage.specs.Stages.{fresh_axis, nearest};
ghost use Rattle.stage.specs.Travel.{instant_travel, stepping_travel};
ghost use Rattle.bank.specs.Banks.{bank_axes};

use crate::bank::Bank;
use stage::{AxisKind, Ease, EasingAxis, Rule, WholeAxis};

// A count out of range acts as the nearest in range, 2 to 12; a reach out of range as the nearest in range, 1 to 2,000,000,000.
impl Bank {
    // A count out of range acts as the nearest in range.
    fn count_taken(count: usize) -> usize
        ensures { result ≡ nearest 2 12 count }
    {
        count.clamp(2, 12)
    }

    // The drive that has so many copies of one axis.
    fn of(axis: AxisKind, count: usize) -> Self
        ensures { bank_axes result ≡ replicate (nearest 2 12 count) (kind_axis axis) }
    {
        Bank {
            count: Bank::count_taken(count),
            axes: [axis; 12],
        }
    }

    // Each axis is at its target after one tick.
    pub fn instant(count: usize, reach: u32) -> Self
        ensures { bank_axes result ≡ replicate (nearest 2 12 count) (fresh_axis instant_travel reach) }
    {
        Bank::of(AxisKind::Whole(WholeAxis::new(Rule::Instant, reach)), count)
    }

    // Each axis steps by its velocity divided by 1,000.
    pub fn stepping(count: usize, reach: u32) -> Self
        ensures { bank_axes result ≡ replicate (nearest 2 12 count) (fresh_axis stepping_travel reach) }
    {
        Bank::of(
            AxisKind::Whole(WholeAxis::new(Rule::Stepping, reach)),
            count,
        )
    }

    // Each axis goes by a stride or by a share of the way left, in f64 numbers.
    pub fn easing(count: usize, reach: u32, ease: Ease) -> Self
        ensures { bank_axes result ≡ replicate (nearest 2 12 count) (fresh_axis (easing_travel ease) reach) }
    {
        Bank::of(AxisKind::Easing(EasingAxis::new(ease, reach)), count)
    }
}
