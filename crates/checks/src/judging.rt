// All rules in their order.
ghost use Rattle.std.specs.Prelude.{◌≡◌, ◌≤◌, ◌++◌, Some};
ghost use Rattle.command.specs.Views.{said};
ghost use Rattle.asked.specs.Seen.{seen};
ghost use Rattle.rules.specs.World.{core_of};
ghost use Rattle.rules.specs.Kinds.{among};
ghost use Rattle.rules.specs.Refusals as R;
ghost use Rattle.shape.specs.Verdicts.{judged, Settles};
ghost use Rattle.checks.specs.Order.{of_start, from_figures, from_axes, without_prefix};

use crate::forming::group_axes;
use crate::moves::{in_group, limits_out, moving_axis, power_missing, waypoints_full};
use asked::naming::{asks, axis_named};
use asked::{Case, View};
use command::command::Command;
use command::mnemonic::Mnemonic;
use desk::Desk;
use drive::Drive;
use figures::ranges::{
    acceleration_out, axis_parameter_out, group_figure_out, group_figure_over, velocity_out,
};
use queue::{ErrorEntry, Fault};
use shape::AxisCase;
use shape::naming::naming;
use shape::parameters::{group_parameter_missing, parameter_missing, parameter_out};

/// The rules of a start: power, limits, waypoints.
#[tactic(auto, using(shape::proofs::Chains::in_order))]
fn starting<D: Drive>(named: &AxisCase<D>) -> Result<(), ErrorEntry>
    ensures { result ≡ judged (of_start (seen D.Drive.axes named.now.case.view) named.now.case.m (said named.now.case.command.now)) }
{
    power_missing(named)?;
    limits_out(named)?;
    waypoints_full(&named.case)
}

/// The rules of a figure that is set, and those behind.
#[tactic(auto, using(shape::proofs::Chains::in_order))]
fn figures<D: Drive>(named: &AxisCase<D>) -> Result<(), ErrorEntry>
    ensures { result ≡ judged (from_figures (seen D.Drive.axes named.now.case.view) named.now.case.m (said named.now.case.command.now)) }
{
    let case = &named.case;
    let desk = case.view.desk;
    velocity_out(desk, case.m, case.command, named.axis)?;
    axis_parameter_out(named)?;
    acceleration_out(desk, case.m, case.command, named.axis)?;
    group_figure_out(case.m, case.command)?;
    group_figure_over(desk, case.m, case.command)?;
    starting(named)
}

/// The rules of the axes that form a group and of axes that move, and those behind.
#[tactic(auto, using(shape::proofs::Chains::in_order))]
fn axes<D: Drive>(named: &AxisCase<D>) -> Result<(), ErrorEntry>
    ensures { result ≡ judged (from_axes (seen D.Drive.axes named.now.case.view) named.now.case.m (said named.now.case.command.now)) }
{
    group_axes(&named.case)?;
    moving_axis(named)?;
    figures(named)
}

/// What only a command meets that does not ask.
#[tactic(auto, using(shape::proofs::Chains::in_order))]
fn doing<D: Drive>(named: &AxisCase<D>) -> Result<(), ErrorEntry>
    ensures { result ≡ judged (R.doing (seen D.Drive.axes named.now.case.view) named.now.case.m (said named.now.case.command.now)) }
{
    let case = &named.case;
    let desk = case.view.desk;
    in_group(named)?;
    parameter_out(desk, case.m, case.command)?;
    parameter_missing(case.m, case.command)?;
    group_parameter_missing(desk, case.m, case.command)?;
    axes(named)
}

/// Whether the prefix of a command is ignored.
fn ignores_prefix(m: Mnemonic) -> bool
    ensures { result ≡ among without_prefix m }
{
    matches!(m, Mnemonic::Ab | Mnemonic::Wt | Mnemonic::Tb | Mnemonic::Te)
}

/// What such a command meets that does not ask.
#[tactic(auto, using(shape::proofs::Chains::in_order))]
fn doing_without_prefix<D: Drive>(case: &Case<D>) -> Result<(), ErrorEntry>
    ensures { result ≡ judged (R.parameter_out (seen D.Drive.axes case.now.view) case.now.m (said case.now.command.now) ++ R.parameter_missing case.now.m (said case.now.command.now)) }
{
    parameter_out(case.view.desk, case.m, case.command)?;
    parameter_missing(case.m, case.command)
}

/// A case with the number of the axis that its command names.
fn with_axis<'a, D>(case: &Case<'a, D>) -> AxisCase<'a, D>
    requires { R.axis_named (said case.now.command.now) ≤ 12 }
    ensures { result.case ≡ case.now }
{
    AxisCase {
        case: *case,
        axis: axis_named(case.command) as u8,
    }
}

/// The rules of a command whose mnemonic is known, in their order.
#[tactic(auto, using(shape::proofs::Chains::in_order))]
fn meets<D: Drive>(case: &Case<D>) -> Result<(), ErrorEntry>
    ensures { result ≡ judged (R.tests_of (seen D.Drive.axes case.now.view) (Some case.now.m) (said case.now.command.now)) }
{
    naming(case.view.desk, case.m, case.command)?;
    if asks(case.m, case.command) {
        return Ok(());
    }
    if ignores_prefix(case.m) {
        return doing_without_prefix(case);
    }
    doing(&with_axis(case))
}

/// THE refusal of a command, if it is refused: the first rule that it breaks decides.
pub fn judge<D: Drive>(desk: &Desk, drive: &D, command: &Command) -> Result<(), ErrorEntry>
    ensures { Settles (R.refused_by (core_of desk.now (D.Drive.axes drive.now)) (said command.now)) result }
{
    let view = View { desk, drive };
    match command.mnemonic {
        Some(m) => meets(&Case { view, m, command }),
        None => Err(ErrorEntry {
            fault: Fault::UnknownCommand,
            column: command.column,
        }),
    }
}
