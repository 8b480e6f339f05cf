// Whether the command names what is there: the axis, or the group.
ghost use Rattle.std.specs.Prelude.{◌≡◌, not, ◌&&◌, []};
ghost use Rattle.command.specs.Views.{said};
ghost use Rattle.desk.specs.Tables.{there};
ghost use Rattle.desk.specs.Desks.{model_of, in_use};
ghost use Rattle.groups.specs.Groups.{members_of};
ghost use Rattle.rules.specs.World.{core_of, members};
ghost use Rattle.command.specs.declared.mnemonic.Mnemonic.TheVariants.{Hn};
ghost use Rattle.rules.specs.Kinds.{is};
ghost use Rattle.rules.specs.Refusals as R;
ghost use Rattle.shape.specs.Verdicts.{judged};

use crate::desk_case::DeskCase;
use crate::entry::test_where;
use asked::kinds::{names_axis, names_group};
use asked::naming::{asks, axis_named, group_named};
use command::command::Command;
use command::mnemonic::Mnemonic;
use desk::Desk;
use groups::Members;
use queue::{ErrorEntry, Fault};

/// 37: an axis command, but WS, lacks its prefix.
fn axis_missing(case: &DeskCase) -> Result<(), ErrorEntry>
    ensures { result ≡ judged (R.axis_missing case.now.m (said case.now.command.now)) }
{
    test_where(
        names_axis(case.m),
        case.command.prefix_number().is_some(),
        Fault::AxisMissing,
        case.command.column,
    )
}

/// Whether the desk has the axis that the command names.
fn is_axis(case: &DeskCase) -> bool
    ensures { result ≡ there (R.axis_named (said case.now.command.now)) (model_of case.now.desk.now).axes }
{
    let axis = axis_named(case.command);
    1 <= axis && axis <= case.desk.axis_count()
}

/// Whether the desk has the group that the command names.
fn is_group(case: &DeskCase) -> bool
    ensures { result ≡ there (R.group_named (core_of case.now.desk.now []) (said case.now.command.now)) (model_of case.now.desk.now).groups }
{
    let group = group_named(case.desk, case.command);
    1 <= group && group <= case.desk.group_count()
}

/// The members of the group that the command names.
pub fn members_named(desk: &Desk, command: &Command) -> Members
    ensures { members_of result ≡ members (core_of desk.now []) (R.group_named (core_of desk.now []) (said command.now)) }
{
    desk.members(group_named(desk, command))
}

/// Whether the group that the command names has members.
fn is_in_use(case: &DeskCase) -> bool
    ensures { result ≡ in_use (R.group_named (core_of case.now.desk.now []) (said case.now.command.now)) (model_of case.now.desk.now) }
{
    members_named(case.desk, case.command).count() > 0
}

/// 9: no such axis.
fn axis_out(case: &DeskCase) -> Result<(), ErrorEntry>
    ensures { result ≡ judged (R.axis_out (core_of case.now.desk.now []) case.now.m (said case.now.command.now)) }
{
    let there = is_axis(case);
    test_where(
        names_axis(case.m),
        there,
        Fault::AxisOutOfRange,
        case.command.column,
    )?;
    test_where(
        matches!(case.m, Mnemonic::Ws),
        axis_named(case.command) == 0 || there,
        Fault::AxisOutOfRange,
        case.command.column,
    )
}

/// 13: a needed group prefix is missing.
fn group_missing(case: &DeskCase) -> Result<(), ErrorEntry>
    ensures { result ≡ judged (R.group_missing (core_of case.now.desk.now []) case.now.m (said case.now.command.now)) }
{
    test_where(
        names_group(case.m),
        case.command.prefix_number().is_some() || case.desk.group_count() == 1,
        Fault::GroupMissing,
        case.command.column,
    )
}

/// 14: no such group.
fn group_out(case: &DeskCase) -> Result<(), ErrorEntry>
    ensures { result ≡ judged (R.group_out (core_of case.now.desk.now []) case.now.m (said case.now.command.now)) }
{
    test_where(
        names_group(case.m),
        is_group(case),
        Fault::GroupOutOfRange,
        case.command.column,
    )
}

/// Whether the command is one that forms a group: HN that does not ask.
fn forms_group(case: &DeskCase) -> bool
    ensures { result ≡ (is case.now.m Hn && not (R.asking case.now.m (said case.now.command.now))) }
{
    matches!(case.m, Mnemonic::Hn) && !asks(case.m, case.command)
}

/// 16: HN, not asking, names a group in use.
fn group_taken(case: &DeskCase) -> Result<(), ErrorEntry>
    ensures { result ≡ judged (R.group_taken (core_of case.now.desk.now []) case.now.m (said case.now.command.now)) }
{
    test_where(
        forms_group(case),
        !is_in_use(case),
        Fault::GroupAlreadyAssigned,
        case.command.column,
    )
}

/// 15: any other group command, or HN?, names one that is not.
fn group_free(case: &DeskCase) -> Result<(), ErrorEntry>
    ensures { result ≡ judged (R.group_free (core_of case.now.desk.now []) case.now.m (said case.now.command.now)) }
{
    test_where(
        names_group(case.m) && !forms_group(case),
        is_in_use(case),
        Fault::GroupNotAssigned,
        case.command.column,
    )
}

/// What every command meets, asking or not.
#[tactic(auto, using(crate::proofs::Chains::in_order))]
pub fn naming(desk: &Desk, m: Mnemonic, command: &Command) -> Result<(), ErrorEntry>
    ensures { result ≡ judged (R.naming (core_of desk.now []) m (said command.now)) }
{
    let case = DeskCase { desk, m, command };
    axis_missing(&case)?;
    axis_out(&case)?;
    group_missing(&case)?;
    group_out(&case)?;
    group_taken(&case)?;
    group_free(&case)
}
