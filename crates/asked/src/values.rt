// What the parameters of a command say.
ghost use Rattle.std.specs.Prelude.{◌≡◌, length};
ghost use Rattle.command.specs.Views.{seen, said};
ghost use Rattle.rules.specs.Refusals as R;

use command::command::Command;
use command::text::Field;
use number::decimal::read_decimal;

/// The decimal that a parameter is, in millionths; 0 for what is none.
pub fn value(field: &Field) -> i64
    ensures { result ≡ R.value (seen field.now) }
{
    read_decimal(field.text().bytes).unwrap_or(0)
}

/// A whole number of units, if it is one.
pub fn whole_units(millionths: i64) -> Option<u64>
    ensures { result ≡ R.whole_units millionths }
{
    let magnitude = u64::try_from(millionths).ok()?;
    (magnitude % 1_000_000 == 0).then_some(magnitude / 1_000_000)
}

/// The whole number that a value is, 0 for one that is none.
pub fn whole_value(millionths: i64) -> u64
    ensures { result ≡ R.whole_value millionths }
{
    whole_units(millionths).unwrap_or(0)
}

/// Whether a value is whole, and from `low` to `high`.
pub fn whole_within(low: u64, high: u64, millionths: i64) -> bool
    ensures { result ≡ R.whole_within low high millionths }
{
    whole_units(millionths).is_some_and(|units| (low..=high).contains(&units))
}

/// How many parameters a command has.
pub fn parameter_count(command: &Command) -> usize
    ensures { result ≡ length (said command.now).parameters }
{
    command.parameters().count()
}

/// The value of the first parameter; missing means 0.
pub fn given(command: &Command) -> i64
    ensures { result ≡ R.given (said command.now) }
{
    command.parameters().next().map_or(0, |field| value(&field))
}

/// The column of the first parameter; that of the command where it is missing.
pub fn given_column(command: &Command) -> usize
    ensures { result ≡ R.given_column (said command.now) }
{
    command
        .parameters()
        .next()
        .map_or(command.column, |field| field.text().column)
}
