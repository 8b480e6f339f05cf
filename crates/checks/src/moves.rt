// Whether an axis may be started, or its position or limits set.
ghost use Rattle.std.specs.Prelude.{◌≡◌, not, [], ◌∷◌, map, length, ◌+ℤ◌, Ok, int_le};
ghost use Rattle.std.specs.List.{find};
ghost use Rattle.command.specs.Views.{seen as read, said};
ghost use Rattle.queue.specs.declared.fault.Fault.TheVariants.{MotorNotEnabled};
ghost use Rattle.desk.specs.Tables.{row_or};
ghost use Rattle.desk.specs.Axes.{no_axis};
ghost use Rattle.desk.specs.Desks.{model_of};
ghost use Rattle.asked.specs.Seen.{seen};
ghost use Rattle.rules.specs.World.{core_of, members, group, powered, axis_at, no_drive_axis};
ghost use Rattle.rules.specs.Refusals as R;
ghost use Rattle.shape.specs.Verdicts.{judged};

use crate::forming::each_resting;
use asked::Case;
use asked::desk_view::{grouped, left, right};
use asked::drive_view::{powered, rests, target};
use asked::kinds::is_barred_to_members;
use asked::naming::group_named;
use asked::values::{given, given_column, value};
use command::mnemonic::Mnemonic;
use command::text::Field;
use desk::Desk;
use drive::Drive;
use queue::{ErrorEntry, Fault};
use shape::AxisCase;
use shape::entry::{test, test_where};
use shape::naming::members_named;

/// x31: the axis is a member of a group.
pub(crate) fn in_group<D: Drive>(named: &AxisCase<D>) -> Result<(), ErrorEntry>
    ensures { result ≡ judged (R.in_group (seen D.Drive.axes named.now.case.view) named.now.case.m (said named.now.case.command.now)) }
{
    let case = &named.case;
    test_where(
        is_barred_to_members(case.m),
        !grouped(case.view.desk, usize::from(named.axis)),
        Fault::InGroup(named.axis),
        case.command.column,
    )
}

/// x26: an axis moves whose position or limits would be set, or that HN names.
pub(crate) fn moving_axis<D: Drive>(named: &AxisCase<D>) -> Result<(), ErrorEntry>
    requires { judged (R.group_axes (seen D.Drive.axes named.now.case.view) named.now.case.m (said named.now.case.command.now)) ≡ Ok tt }
    ensures { result ≡ judged (R.moving_axis (seen D.Drive.axes named.now.case.view) named.now.case.m (said named.now.case.command.now)) }
{
    let case = &named.case;
    match case.m {
        Mnemonic::Dh | Mnemonic::Sl | Mnemonic::Sr => test(
            rests(case.view.drive, usize::from(named.axis)),
            Fault::ChangeNotAllowed(named.axis),
            case.command.column,
        ),
        Mnemonic::Hn => each_resting(case),
        _ => Ok(()),
    }
}

/// Whether an axis has power.
fn has_power<D: Drive>(drive: &D, axis: u8, column: usize) -> Result<(), ErrorEntry>
    ensures { result ≡ judged (R.needs (row_or no_drive_axis axis (D.Drive.axes drive.now)).powered (R.entry (MotorNotEnabled axis) column) ∷ []) }
{
    test(
        powered(drive, usize::from(axis)),
        Fault::MotorNotEnabled(axis),
        column,
    )
}

/// The first of some axes that has no power.
fn first_unpowered<D: Drive>(drive: &D, axes: &[u8]) -> Option<u8>
    ensures { result ≡ find (λ n. not (row_or no_drive_axis n (D.Drive.axes drive.now)).powered) axes.now }
{
    axes.iter()
        .copied()
        .find(|axis| !powered(drive, *axis as usize))
}

/// The first member without power, of the group that HL names.
fn members_powered<D: Drive>(case: &Case<D>) -> Result<(), ErrorEntry>
    ensures { result ≡ judged (map (λ n. R.needs (powered (seen D.Drive.axes case.now.view) n) (R.entry (MotorNotEnabled n) (said case.now.command.now).column)) (members (seen D.Drive.axes case.now.view) (R.group_named (seen D.Drive.axes case.now.view) (said case.now.command.now)))) }
{
    let members = members_named(case.view.desk, case.command);
    match first_unpowered(case.view.drive, members.axes()) {
        Some(axis) => Err(ErrorEntry {
            fault: Fault::MotorNotEnabled(axis),
            column: case.command.column,
        }),
        None => Ok(()),
    }
}

/// x13: an axis that would start has no power.
pub(crate) fn power_missing<D: Drive>(named: &AxisCase<D>) -> Result<(), ErrorEntry>
    ensures { result ≡ judged (R.power_missing (seen D.Drive.axes named.now.case.view) named.now.case.m (said named.now.case.command.now)) }
{
    let case = &named.case;
    match case.m {
        Mnemonic::Pa | Mnemonic::Pr => has_power(case.view.drive, named.axis, case.command.column),
        Mnemonic::Hl => members_powered(case),
        _ => Ok(()),
    }
}

// The two below stay apart: one for both sides would take the limit and the comparison as closures, and be no plainer.

/// Whether a target is not right of the right limit of an axis.
fn not_right(desk: &Desk, axis: u8, z: i128) -> bool
    ensures { result ≡ int_le z (row_or no_axis axis (model_of desk.now).axes).right }
{
    z <= i128::from(right(desk, axis as usize))
}

/// Whether a target is not left of the left limit of an axis.
fn not_left(desk: &Desk, axis: u8, z: i128) -> bool
    ensures { result ≡ int_le (row_or no_axis axis (model_of desk.now).axes).left z }
{
    i128::from(left(desk, axis as usize)) <= z
}

/// Whether a target is not right and not left of the limits of an axis.
fn within_limits(desk: &Desk, axis: u8, z: i128, column: usize) -> Result<(), ErrorEntry>
    ensures { result ≡ judged (R.within_limits (core_of desk.now []) axis z column) }
{
    let below_right = not_right(desk, axis, z);
    let above_left = not_left(desk, axis, z);
    test(below_right, Fault::PositiveLimitExceeded(axis), column)?;
    test(above_left, Fault::NegativeLimitExceeded(axis), column)
}

/// Whether a parameter of HL is within the limits of the axis that it is for.
fn is_within(desk: &Desk, axis: u8, field: &Field) -> Result<(), ErrorEntry>
    ensures { result ≡ judged (R.within_limits (core_of desk.now []) axis (R.value (read field.now)) (read field.now).column) }
{
    within_limits(desk, axis, i128::from(value(field)), field.text().column)
}

/// The first member whose position is outside its limits, of the group that HL names.
fn members_within<D: Drive>(case: &Case<D>) -> Result<(), ErrorEntry>
    ensures { result ≡ judged (R.each_within (seen D.Drive.axes case.now.view) (members (seen D.Drive.axes case.now.view) (R.group_named (seen D.Drive.axes case.now.view) (said case.now.command.now))) (said case.now.command.now).parameters) }
{
    let members = members_named(case.view.desk, case.command);
    let mut pairs = members.axes().iter().zip(case.command.parameters());
    pairs.try_for_each(|(axis, field)| is_within(case.view.desk, *axis, &field))
}

/// The target that PR names: the parameter counts from the target that the axis has.
fn relative_target<D: Drive>(named: &AxisCase<D>) -> i128
    ensures { result ≡ (axis_at (seen D.Drive.axes named.now.case.view) named.now.axis).target +ℤ R.given (said named.now.case.command.now) }
{
    let case = &named.case;
    i128::from(target(case.view.drive, usize::from(named.axis))) + i128::from(given(case.command))
}

/// x06, x07: a target outside the limits.
pub(crate) fn limits_out<D: Drive>(named: &AxisCase<D>) -> Result<(), ErrorEntry>
    ensures { result ≡ judged (R.limits_out (seen D.Drive.axes named.now.case.view) named.now.case.m (said named.now.case.command.now)) }
{
    let case = &named.case;
    let desk = case.view.desk;
    let axis = named.axis;
    let column = given_column(case.command);
    match case.m {
        Mnemonic::Pa => within_limits(desk, axis, i128::from(given(case.command)), column),
        Mnemonic::Pr => within_limits(desk, axis, relative_target(named), column),
        Mnemonic::Hl => members_within(case),
        _ => Ok(()),
    }
}

/// The waypoints that wait in the group that the command names.
fn waypoints_named<D: Drive>(case: &Case<D>) -> usize
    ensures { result ≡ length (group (seen D.Drive.axes case.now.view) (R.group_named (seen D.Drive.axes case.now.view) (said case.now.command.now))).waypoints }
{
    let desk = case.view.desk;
    desk.waypoint_count(group_named(desk, case.command))
}

/// 92: eight waypoints wait.
pub(crate) fn waypoints_full<D: Drive>(case: &Case<D>) -> Result<(), ErrorEntry>
    ensures { result ≡ judged (R.waypoints_full (seen D.Drive.axes case.now.view) case.now.m (said case.now.command.now)) }
{
    test_where(
        matches!(case.m, Mnemonic::Hl),
        waypoints_named(case) < 8,
        Fault::WaypointsFull,
        case.command.column,
    )
}
