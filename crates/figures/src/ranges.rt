// Whether the figure that a command sets is in its range.
ghost use Rattle.std.specs.Prelude.{◌≡◌, ℕ, ◌&&◌, [], ◌∷◌, map, int_le, nat_le, unsigned_abs};
ghost use Rattle.command.specs.declared.mnemonic.Mnemonic.TheVariants.{Ac, Ag, Fp, Dh, Sl, Sr};
ghost use Rattle.command.specs.Views.{said};
ghost use Rattle.desk.specs.Tables.{row_or};
ghost use Rattle.desk.specs.Axes.{no_axis};
ghost use Rattle.desk.specs.Desks.{model_of};
ghost use Rattle.asked.specs.Seen.{seen};
ghost use Rattle.rules.specs.Kinds.{among};
ghost use Rattle.rules.specs.World.{core_of, members, no_drive_axis};
ghost use Rattle.rules.specs.Refusals as R;
ghost use Rattle.shape.specs.Verdicts.{judged};

use asked::desk_view::{left, max_acceleration, max_velocity, right};
use asked::drive_view::{position, reach};
use asked::kinds::sets_group_figure;
use asked::values::{given, given_column, whole_within};
use command::command::Command;
use command::mnemonic::Mnemonic;
use desk::Desk;
use drive::Drive;
use queue::{ErrorEntry, Fault};
use shape::AxisCase;
use shape::entry::{test, test_where};
use shape::naming::members_named;

/// x24, x10: VA is not above 0, or above the maximum.
pub fn velocity_out(desk: &Desk, m: Mnemonic, command: &Command, axis: u8) -> Result<(), ErrorEntry>
    requires { R.axis_named (said command.now) ≡ axis }
    ensures { result ≡ judged (R.velocity_out (core_of desk.now []) m (said command.now)) }
{
    let Mnemonic::Va = m else {
        return Ok(());
    };
    let velocity = given(command);
    let column = given_column(command);
    let most = i64::from(max_velocity(desk, usize::from(axis)));
    test(velocity > 0, Fault::VelocityOutOfRange(axis), column)?;
    test(velocity <= most, Fault::VelocityExceeded(axis), column)
}

/// Whether a position is within the reach of an axis.
fn is_reachable<D: Drive>(drive: &D, axis: usize, z: i64) -> bool
    ensures { result ≡ nat_le (unsigned_abs z) (row_or no_drive_axis axis (D.Drive.axes drive.now)).reach }
{
    z.unsigned_abs() <= u64::from(reach(drive, axis))
}

/// Whether a position is within the limits of an axis.
fn is_within_limits(desk: &Desk, axis: usize, z: i64) -> bool
    ensures { result ≡ (int_le (row_or no_axis axis (model_of desk.now).axes).left z && int_le z (row_or no_axis axis (model_of desk.now).axes).right) }
{
    i64::from(left(desk, axis)) <= z && z <= i64::from(right(desk, axis))
}

/// What x01 asks of the parameter.
fn is_axis_parameter<D: Drive>(named: &AxisCase<D>) -> bool
    ensures { result ≡ R.axis_parameter_ok (seen D.Drive.axes named.now.case.view) named.now.case.m named.now.axis (R.given (said named.now.case.command.now)) }
{
    let view = named.case.view;
    let axis = usize::from(named.axis);
    let z = given(named.case.command);
    match named.case.m {
        Mnemonic::Ac | Mnemonic::Ag => z > 0,
        Mnemonic::Fp => whole_within(0, 6, z),
        Mnemonic::Dh => is_within_limits(view.desk, axis, z),
        Mnemonic::Sl => z <= i64::from(position(view.drive, axis))
            && is_reachable(view.drive, axis, z),
        Mnemonic::Sr => i64::from(position(view.drive, axis)) <= z
            && is_reachable(view.drive, axis, z),
        _ => true,
    }
}

/// Whether the command sets a setting of an axis that has a range of its own, or the position.
fn sets_ranged(m: Mnemonic) -> bool
    ensures { result ≡ among (Ac ∷ Ag ∷ Fp ∷ Dh ∷ Sl ∷ Sr ∷ []) m }
{
    matches!(
        m,
        Mnemonic::Ac | Mnemonic::Ag | Mnemonic::Fp | Mnemonic::Dh | Mnemonic::Sl | Mnemonic::Sr
    )
}

/// x01: AC or AG not above 0, FP not whole from 0 to 6, DH outside the limits, SL above or SR below the position or either
/// beyond the reach.
pub fn axis_parameter_out<D: Drive>(named: &AxisCase<D>) -> Result<(), ErrorEntry>
    ensures { result ≡ judged (R.axis_parameter_out (seen D.Drive.axes named.now.case.view) named.now.case.m (said named.now.case.command.now)) }
{
    test_where(
        sets_ranged(named.case.m),
        is_axis_parameter(named),
        Fault::AxisParameterOutOfRange(named.axis),
        given_column(named.case.command),
    )
}

/// x11: AC or AG above the maximum.
pub fn acceleration_out(
    desk: &Desk,
    m: Mnemonic,
    command: &Command,
    axis: u8,
) -> Result<(), ErrorEntry>
    requires { R.axis_named (said command.now) ≡ axis }
    ensures { result ≡ judged (R.acceleration_out (core_of desk.now []) m (said command.now)) }
{
    let most = i64::from(max_acceleration(desk, usize::from(axis)));
    test_where(
        matches!(m, Mnemonic::Ac | Mnemonic::Ag),
        given(command) <= most,
        Fault::AccelerationExceeded(axis),
        given_column(command),
    )
}

/// 30: HV, HA or HD is not above 0.
pub fn group_figure_out(m: Mnemonic, command: &Command) -> Result<(), ErrorEntry>
    ensures { result ≡ judged (R.group_figure_out m (said command.now)) }
{
    test_where(
        sets_group_figure(m),
        given(command) > 0,
        Fault::GroupParameterOutOfRange,
        given_column(command),
    )
}

/// Whether no member of the group that the command names has a maximum below the command's figure.
fn no_member_below<F: Fn(usize) -> u32>(desk: &Desk, command: &Command, maximum: F) -> bool
    requires { F.IsAlwaysCallable maximum }
    ensures { (most : ℕ → ℕ) → ((n r : ℕ) → F.post maximum n r → r ≡ most n) → result ≡ R.none_below (R.given (said command.now)) (map most (members (core_of desk.now []) (R.group_named (core_of desk.now []) (said command.now)))) }
{
    let z = given(command);
    members_named(desk, command)
        .axes()
        .iter()
        .all(|axis| z <= i64::from(maximum(usize::from(*axis))))
}

/// 31, 32, 33: above the smallest maximum of a member.
pub fn group_figure_over(desk: &Desk, m: Mnemonic, command: &Command) -> Result<(), ErrorEntry>
    ensures { result ≡ judged (R.group_figure_over (core_of desk.now []) m (said command.now)) }
{
    let column = given_column(command);
    let velocity = |axis: usize| max_velocity(desk, axis);
    let ramp = |axis: usize| max_acceleration(desk, axis);
    match m {
        Mnemonic::Hv => test(
            no_member_below(desk, command, velocity),
            Fault::GroupVelocityExceeded,
            column,
        ),
        Mnemonic::Ha => test(
            no_member_below(desk, command, ramp),
            Fault::GroupAccelerationExceeded,
            column,
        ),
        Mnemonic::Hd => test(
            no_member_below(desk, command, ramp),
            Fault::GroupDecelerationExceeded,
            column,
        ),
        _ => Ok(()),
    }
}
