// Whether the command has the parameters that it takes.
ghost use Rattle.std.specs.Prelude.{◌≡◌, not, ◌&&◌, ◌||◌, [], ◌∷◌, length, is_some, nat_le};
ghost use Rattle.command.specs.Views.{seen, said};
ghost use Rattle.number.specs.Decimals.{read_decimal};
ghost use Rattle.rules.specs.World.{core_of};
ghost use Rattle.command.specs.declared.mnemonic.Mnemonic.TheVariants.{Wt};
ghost use Rattle.queue.specs.declared.fault.Fault.TheVariants.{ParameterOutOfRange};
ghost use Rattle.rules.specs.Kinds.{is};
ghost use Rattle.rules.specs.Refusals as R;
ghost use Rattle.shape.specs.Verdicts.{judged};

use crate::desk_case::DeskCase;
use crate::entry::{test, test_where};
use crate::naming::members_named;
use asked::kinds::{needs_one, offers_question, sets_group_figure, takes_one};
use asked::values::{parameter_count, value, whole_within};
use command::command::Command;
use command::mnemonic::Mnemonic;
use command::text::Field;
use desk::Desk;
use number::decimal::read_decimal;
use queue::{ErrorEntry, Fault};

/// Whether the command takes a parameter in the place `i`, counted from 0; HN takes any number.
fn is_allowed(case: &DeskCase, i: usize) -> bool
    ensures { result ≡ R.allowed (core_of case.now.desk.now []) case.now.m (said case.now.command.now) i }
{
    matches!(case.m, Mnemonic::Hn)
        || (matches!(case.m, Mnemonic::Hl) && i < members_named(case.desk, case.command).count())
        || (takes_one(case.m) && i < 1)
}

/// Whether a parameter is blank.
fn is_blank(field: &Field) -> bool
    ensures { result ≡ R.blank_field (seen field.now) }
{
    field.text().bytes.is_empty()
}

/// Whether a parameter is a decimal.
fn is_decimal(field: &Field) -> bool
    ensures { result ≡ is_some (read_decimal (seen field.now).bytes) }
{
    read_decimal(field.text().bytes).is_some()
}

/// Whether a parameter is one of WT that is not whole from 0 to 60,000.
fn is_wrong_wait(m: Mnemonic, field: &Field) -> bool
    ensures { result ≡ (is m Wt && not (R.whole_within 0 60000 (R.value (seen field.now)))) }
{
    matches!(m, Mnemonic::Wt) && !whole_within(0, 60_000, value(field))
}

/// Whether a parameter that is not blank offends: it is no decimal, or needless, or one of WT out of range.
fn offends(case: &DeskCase, i: usize, field: &Field) -> bool
    ensures { result ≡ R.offends (core_of case.now.desk.now []) case.now.m (said case.now.command.now) i (seen field.now) }
{
    !is_decimal(field) || !is_allowed(case, i) || is_wrong_wait(case.m, field)
}

/// Whether a parameter passes that may be blank: what is not blank must not offend.
fn passes_unblank(case: &DeskCase, i: usize, field: &Field) -> Result<(), ErrorEntry>
    ensures { result ≡ judged (R.needs (R.blank_field (seen field.now) || not (R.offends (core_of case.now.desk.now []) case.now.m (said case.now.command.now) i (seen field.now))) (R.entry ParameterOutOfRange (seen field.now).column) ∷ []) }
{
    test(
        is_blank(field) || !offends(case, i, field),
        Fault::ParameterOutOfRange,
        field.text().column,
    )
}

/// The first parameter from the left that is not blank and offends.
fn unblank_pass(case: &DeskCase) -> Result<(), ErrorEntry>
    ensures { result ≡ judged (R.unblank_pass (core_of case.now.desk.now []) case.now.m (said case.now.command.now) 0 (said case.now.command.now).parameters) }
{
    let mut given = case.command.parameters().enumerate();
    given.try_for_each(|(i, field)| passes_unblank(case, i, &field))
}

/// Whether a blank parameter stands where the command takes one.
fn passes_blank(case: &DeskCase, i: usize, field: &Field) -> Result<(), ErrorEntry>
    ensures { result ≡ judged (R.needs (not (R.blank_field (seen field.now)) || R.allowed (core_of case.now.desk.now []) case.now.m (said case.now.command.now) i) (R.entry ParameterOutOfRange (said case.now.command.now).column) ∷ []) }
{
    test(
        !is_blank(field) || is_allowed(case, i),
        Fault::ParameterOutOfRange,
        case.command.column,
    )
}

/// A blank parameter that is needless.
fn blank_pass(case: &DeskCase) -> Result<(), ErrorEntry>
    ensures { result ≡ judged (R.blank_pass (core_of case.now.desk.now []) case.now.m (said case.now.command.now) 0 (said case.now.command.now).parameters) }
{
    let mut given = case.command.parameters().enumerate();
    given.try_for_each(|(i, field)| passes_blank(case, i, &field))
}

/// A question mark that is not offered.
fn question_pass(case: &DeskCase) -> Result<(), ErrorEntry>
    ensures { result ≡ judged (R.question_pass case.now.m (said case.now.command.now).question) }
{
    match case.command.question() {
        Some(field) => test(
            offers_question(case.m),
            Fault::ParameterOutOfRange,
            field.text().column,
        ),
        None => Ok(()),
    }
}

/// Whether there is a parameter where one is wanted, and the fault where there is none.
fn some_parameter(wanted: bool, command: &Command, fault: Fault) -> Result<(), ErrorEntry>
    ensures { result ≡ judged (R.where_so wanted (R.needs (not (R.no_parameters (said command.now))) (R.entry fault (said command.now).column) ∷ [])) }
{
    test_where(wanted, parameter_count(command) != 0, fault, command.column)
}

/// 7: a parameter offends, or a question mark is not offered, or HV, HA or HD has none.
#[tactic(auto, using(crate::proofs::Chains::in_order))]
pub fn parameter_out(desk: &Desk, m: Mnemonic, command: &Command) -> Result<(), ErrorEntry>
    ensures { result ≡ judged (R.parameter_out (core_of desk.now []) m (said command.now)) }
{
    let case = DeskCase { desk, m, command };
    unblank_pass(&case)?;
    question_pass(&case)?;
    blank_pass(&case)?;
    some_parameter(sets_group_figure(m), command, Fault::ParameterOutOfRange)
}

/// 38: a needed parameter is missing.
pub fn parameter_missing(m: Mnemonic, command: &Command) -> Result<(), ErrorEntry>
    ensures { result ≡ judged (R.parameter_missing m (said command.now)) }
{
    some_parameter(needs_one(m), command, Fault::ParameterMissing)
}

/// Whether no parameter is blank.
fn none_blank(command: &Command) -> bool
    ensures { result ≡ R.none_blank (said command.now).parameters }
{
    command.parameters().all(|field| !is_blank(&field))
}

/// Whether there are so many parameters, and none is blank.
fn enough(command: &Command, least: usize) -> bool
    ensures { result ≡ (nat_le least (length (said command.now).parameters) && R.none_blank (said command.now).parameters) }
{
    least <= parameter_count(command) && none_blank(command)
}

/// 29: HN has fewer than two, HL fewer than members, or either has a blank one.
pub fn group_parameter_missing(
    desk: &Desk,
    m: Mnemonic,
    command: &Command,
) -> Result<(), ErrorEntry>
    ensures { result ≡ judged (R.group_parameter_missing (core_of desk.now []) m (said command.now)) }
{
    test_where(
        matches!(m, Mnemonic::Hn),
        enough(command, 2),
        Fault::GroupParameterMissing,
        command.column,
    )?;
    test_where(
        matches!(m, Mnemonic::Hl),
        enough(command, members_named(desk, command).count()),
        Fault::GroupParameterMissing,
        command.column,
    )
}
