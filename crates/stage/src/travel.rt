ghost use Rattle.std.specs.Prelude.{◌≡◌, ◌<◌, ◌≤◌, ℤ};
ghost use Rattle.drive.specs.declared.profile.Profile.{Profile};
ghost use Rattle.drive.specs.Model.{Fair};
ghost use Rattle.stage.specs.Rules.{travel_by};
ghost use Rattle.stage.specs.Sounds.{rule_fair};
ghost use Rattle.stage.specs.Travel.{held, toward, way};

use crate::rule::Rule;
use drive::Profile;

// A rule of travel: where a tick takes an axis on its way to a target.
pub trait Travel: Copy {
    ghost travel: { Self → ℤ → ℤ → Profile → ℤ };

    fn travelled(self, position: i32, target: i32, profile: Profile) -> i32
        ensures { result ≡ travel self position target profile };

    ghost fair: { (r : Self) (p t : ℤ) (q : Profile) → Fair p (travel r p t q) t };
}

// A step: what the rule asks for, raised to 1 if less, then cut to the way left.
// Not `clamp(1, left)`: that asks for 1 or more left, and an axis at its target has 0.
pub(crate) fn held(asked: u32, left: u32) -> u32
    ensures value { result ≡ held asked left }
    ensures cut { result ≤ left }
    ensures raised { 0 < left → 1 ≤ result }
{
    asked.max(1).min(left)
}

// The step of an axis that asks for so much on its way from a position to a target.
fn step(position: i32, target: i32, asked: u32) -> u32
    ensures value { result ≡ held asked (way position target) }
    ensures cut { result ≤ way position target }
{
    held(asked, target.abs_diff(position))
}

// Where a tick takes an axis that asks for such a step on its way from a position to a target.
pub(crate) fn toward(position: i32, target: i32, asked: u32) -> i32
    ensures value { result ≡ toward position target asked }
    ensures fair { Fair position result target }
{
    let ahead = step(position, target, asked) as i64;
    if position < target {
        (position as i64 + ahead) as i32
    } else {
        (position as i64 - ahead) as i32
    }
}

impl Travel for Rule {
    ghost travel = { travel_by };

    ghost fair = { rule_fair };

    fn travelled(self, position: i32, target: i32, profile: Profile) -> i32 {
        match self {
            Rule::Instant => target,
            Rule::Stepping => toward(position, target, profile.velocity / 1000),
        }
    }
}
