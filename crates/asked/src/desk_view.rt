// How an axis is set. Where there is no such axis, its figures, limits and digits are 0.
ghost use Rattle.std.specs.Prelude.{◌≡◌, ◌≤◌};
ghost use Rattle.desk.specs.Tables.{row_or};
ghost use Rattle.desk.specs.Axes.{no_axis};
ghost use Rattle.desk.specs.Desks.{model_of};
ghost use Rattle.rules.specs.World.{taken_groups};
ghost use Rattle.asked.specs.Rows.{SettingsAre};

use desk::{AxisSettings, Desk};
use drive::Profile;

/// The settings of an axis, if it is there.
#[tactic(auto, using(crate::proofs::Stands::row_some, crate::proofs::Stands::row_none))]
pub fn settings(desk: &Desk, axis: usize) -> Option<AxisSettings>
    ensures { SettingsAre (model_of desk.now).axes axis result }
{
    desk.axis(axis)
}

pub fn left(desk: &Desk, axis: usize) -> i32
    ensures { result ≡ (row_or no_axis axis (model_of desk.now).axes).left }
{
    settings(desk, axis).map_or(0, |a| a.left)
}

pub fn right(desk: &Desk, axis: usize) -> i32
    ensures { result ≡ (row_or no_axis axis (model_of desk.now).axes).right }
{
    settings(desk, axis).map_or(0, |a| a.right)
}

pub fn max_velocity(desk: &Desk, axis: usize) -> u32
    ensures { result ≡ (row_or no_axis axis (model_of desk.now).axes).max_velocity }
{
    settings(desk, axis).map_or(0, |a| a.max_velocity)
}

pub fn max_acceleration(desk: &Desk, axis: usize) -> u32
    ensures { result ≡ (row_or no_axis axis (model_of desk.now).axes).max_acceleration }
{
    settings(desk, axis).map_or(0, |a| a.max_acceleration)
}

/// The profile of a start outside a group.
pub fn own(desk: &Desk, axis: usize) -> Profile
    ensures { result ≡ (row_or no_axis axis (model_of desk.now).axes).own }
{
    settings(desk, axis).map(|a| a.own).unwrap_or_default()
}

/// How many digits of a position are shown behind the point.
pub fn digits(desk: &Desk, axis: usize) -> u8
    ensures value { result ≡ (row_or no_axis axis (model_of desk.now).axes).digits }
    ensures few { result ≤ 6 }
{
    settings(desk, axis).map_or(0, |a| a.digits)
}

/// The axis is a member of a group.
#[tactic(auto, using(crate::proofs::Stands::taken_first))]
pub fn grouped(desk: &Desk, axis: usize) -> bool
    ensures { result ≡ taken_groups axis (model_of desk.now).groups }
{
    desk.group_of(axis).is_some()
}
