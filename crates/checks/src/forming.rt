// Whether HN names axes that can form a group.
ghost use Rattle.std.specs.Prelude.{◌≡◌, ◌≤◌, not, [], ◌∷◌, ◌++◌, map, take, Ok};
ghost use Rattle.command.specs.Views.{seen as read, said};
ghost use Rattle.queue.specs.declared.fault.Fault.TheVariants.{GroupAxisOutOfRange, GroupAxisDuplicated, GroupAxisAlreadyAssigned, ChangeNotAllowed};
ghost use Rattle.groups.specs.Groups.{has};
ghost use Rattle.drive.specs.Model.{at_rest};
ghost use Rattle.desk.specs.Tables.{row_or};
ghost use Rattle.asked.specs.Seen.{seen};
ghost use Rattle.rules.specs.World.{core_of, grouped, axis_count, resting, no_drive_axis};
ghost use Rattle.rules.specs.Refusals as R;
ghost use Rattle.shape.specs.Verdicts.{judged};

use asked::Case;
use asked::desk_view::grouped;
use asked::drive_view::rests;
use asked::values::{value, whole_value, whole_within};
use command::command::Command;
use command::mnemonic::Mnemonic;
use command::text::Field;
use desk::Desk;
use drive::Drive;
use queue::{ErrorEntry, Fault};
use shape::entry::test;

/// The whole number that a parameter says.
fn units(field: &Field) -> u64
    ensures { result ≡ R.units (read field.now) }
{
    whole_value(value(field))
}

/// Whether a parameter is the number of an axis.
fn is_axis(desk: &Desk, field: &Field) -> Result<(), ErrorEntry>
    ensures { result ≡ judged (R.needs (R.whole_within 1 (axis_count (core_of desk.now [])) (R.value (read field.now))) (R.entry GroupAxisOutOfRange (read field.now).column) ∷ []) }
{
    test(
        whole_within(1, desk.axis_count() as u64, value(field)),
        Fault::GroupAxisOutOfRange,
        field.text().column,
    )
}

/// 17: each is the number of an axis.
fn each_axis<D: Drive>(case: &Case<D>) -> Result<(), ErrorEntry>
    ensures { result ≡ judged (R.each_axis (seen D.Drive.axes case.now.view) (said case.now.command.now).parameters) }
{
    let mut given = case.command.parameters();
    given.try_for_each(|field| is_axis(case.view.desk, &field))
}

/// Whether one of the first `count` parameters says that number.
fn is_among(command: &Command, count: usize, number: u64) -> bool
    ensures { result ≡ has number (map R.units (take count (said command.now).parameters)) }
{
    let mut earlier = command.parameters().take(count);
    earlier.any(|field| units(&field) == number)
}

/// Whether the parameter in the place `i` says a number that none before it says.
fn is_new(command: &Command, i: usize, field: &Field) -> Result<(), ErrorEntry>
    ensures { result ≡ judged (R.needs (not (has (R.units (read field.now)) (map R.units (take i (said command.now).parameters)))) (R.entry GroupAxisDuplicated (read field.now).column) ∷ []) }
{
    test(
        !is_among(command, i, units(field)),
        Fault::GroupAxisDuplicated,
        field.text().column,
    )
}

/// 19: none repeats an earlier one.
fn each_new(command: &Command) -> Result<(), ErrorEntry>
    ensures { result ≡ judged (R.each_new [] (said command.now).parameters) }
{
    let mut given = command.parameters().enumerate();
    given.try_for_each(|(i, field)| is_new(command, i, &field))
}

/// Whether a parameter names an axis outside all groups.
fn is_free(desk: &Desk, field: &Field) -> Result<(), ErrorEntry>
    ensures { result ≡ judged (R.needs (not (grouped (core_of desk.now []) (R.units (read field.now)))) (R.entry GroupAxisAlreadyAssigned (read field.now).column) ∷ []) }
{
    test(
        !grouped(desk, units(field) as usize),
        Fault::GroupAxisAlreadyAssigned,
        field.text().column,
    )
}

/// 18: none is a member of a group.
fn each_free<D: Drive>(case: &Case<D>) -> Result<(), ErrorEntry>
    ensures { result ≡ judged (R.each_free (seen D.Drive.axes case.now.view) (said case.now.command.now).parameters) }
{
    let mut given = case.command.parameters();
    given.try_for_each(|field| is_free(case.view.desk, &field))
}

/// 17, 19, 18: HN, in that order.
pub(crate) fn group_axes<D: Drive>(case: &Case<D>) -> Result<(), ErrorEntry>
    ensures { result ≡ judged (R.group_axes (seen D.Drive.axes case.now.view) case.now.m (said case.now.command.now)) }
{
    match case.m {
        Mnemonic::Hn => named_axes(case),
        _ => Ok(()),
    }
}

/// Whether the parameters are numbers of axes, each named once, and none of them in a group.
#[tactic(auto, using(shape::proofs::Chains::in_order))]
fn named_axes<D: Drive>(case: &Case<D>) -> Result<(), ErrorEntry>
    ensures { result ≡ judged (R.each_axis (seen D.Drive.axes case.now.view) (said case.now.command.now).parameters ++ (R.each_new [] (said case.now.command.now).parameters ++ R.each_free (seen D.Drive.axes case.now.view) (said case.now.command.now).parameters)) }
{
    each_axis(case)?;
    each_new(case.command)?;
    each_free(case)
}

/// Whether the axis that a parameter names rests.
fn is_resting<D: Drive>(drive: &D, field: &Field, column: usize) -> Result<(), ErrorEntry>
    requires { R.units (read field.now) ≤ 12 }
    ensures { result ≡ judged (R.needs (at_rest (row_or no_drive_axis (R.units (read field.now)) (D.Drive.axes drive.now))) (R.entry (ChangeNotAllowed (R.units (read field.now))) column) ∷ []) }
{
    let axis = units(field);
    test(
        rests(drive, axis as usize),
        Fault::ChangeNotAllowed(axis as u8),
        column,
    )
}

/// x26 of HN: the first axis named that moves.
pub(crate) fn each_resting<D: Drive>(case: &Case<D>) -> Result<(), ErrorEntry>
    requires { judged (R.each_axis (seen D.Drive.axes case.now.view) (said case.now.command.now).parameters) ≡ Ok tt }
    ensures { result ≡ judged (map (λ f. R.needs (resting (seen D.Drive.axes case.now.view) (R.units f)) (R.entry (ChangeNotAllowed (R.units f)) (said case.now.command.now).column)) (said case.now.command.now).parameters) }
{
    let mut given = case.command.parameters();
    given.try_for_each(|field| is_resting(case.view.drive, &field, case.command.column))
}
