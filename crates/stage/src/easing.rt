ghost use Rattle.std.specs.Prelude.{◌≡◌};
ghost use Rattle.drive.specs.Model.{Fair};
ghost use Rattle.stage.specs.Easing.{asked, eased, easing_travel, share_taken, stride_taken};
ghost use Rattle.stage.specs.Sounds.{ease_fair};

use crate::ease::Ease;
use crate::travel::{Travel, toward};
use drive::Profile;
use std::num::saturating_f64_to_u32;

// A stride that is whole from 1 to 2,000,000,000; any other acts as 1.
fn stride_taken(stride: f64) -> u32
    ensures { result ≡ stride_taken stride }
{
    let whole = saturating_f64_to_u32(stride);
    if whole >= 1 && whole <= 2_000_000_000 && whole as f64 == stride {
        whole
    } else {
        1
    }
}

// A share above 0 and at most 1; any other acts as 1.
fn share_taken(share: f64) -> f64
    ensures { result ≡ share_taken share }
{
    if share > 0.0 && share <= 1.0 {
        share
    } else {
        1.0
    }
}

impl Ease {
    // The step that is asked for where so much of the way is left.
    pub fn asked(self, left: u32) -> u32
        ensures { result ≡ asked self left }
    {
        match self {
            Ease::Stride(stride) => stride_taken(stride),
            Ease::Share(share) => saturating_f64_to_u32(left as f64 * share_taken(share)),
        }
    }

    // Where a tick takes an axis with this setting. The profile of a start has no part in it.
    pub fn travelled(self, position: i32, target: i32) -> i32
        ensures value { result ≡ eased self position target }
        ensures fair { Fair position result target }
    {
        toward(position, target, self.asked(target.abs_diff(position)))
    }
}

impl Travel for Ease {
    ghost travel = { easing_travel };

    ghost fair = { ease_fair };

    fn travelled(self, position: i32, target: i32, _profile: Profile) -> i32 {
        Ease::travelled(self, position, target)
    }
}
