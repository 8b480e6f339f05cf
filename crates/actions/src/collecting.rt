// The parameters of a command taken together; none for more than 12.
ghost use Rattle.std.specs.Prelude.{◌≡◌, ◌-◌, ◌^◌, map};
ghost use Rattle.fixed.specs.Lists.{listed, fitting as fitting_list};
ghost use Rattle.command.specs.Commands as Commands;
ghost use Rattle.command.specs.Views.{seen, said};
ghost use Rattle.rules.specs.Refusals as R;
ghost use Rattle.actions.specs.Narrow.{fitting, as_position};
ghost use Rattle.actions.specs.Reads.{Reads};

use crate::narrowing::{narrow_i32, narrow_u8};
use asked::values::{value, whole_value};
use command::command::Command;
use command::text::Field;
use fixed::FixedList;

/// The value of a parameter as a position.
pub(crate) fn position_said(field: &Field) -> i32
    ensures { result ≡ as_position (R.value (seen field.now)) }
{
    narrow_i32(value(field))
}

/// The whole number of a parameter as the number of an axis.
pub(crate) fn axis_said(field: &Field) -> u8
    ensures { result ≡ fitting (2 ^ 8 - 1) (R.units (seen field.now)) }
{
    narrow_u8(whole_value(value(field)))
}

/// What is read from each parameter, in the order said.
pub(crate) fn collect<T: Copy + Default, F: Fn(&Field) -> T>(
    command: &Command,
    read: F,
) -> Option<FixedList<T, 12>>
    requires { F.IsAlwaysCallable read }
    ensures { (f : Commands.Field → T) → Reads (F.post read) f → listed result ≡ fitting_list 12 (map f (said command.now).parameters) }
{
    let mut list = FixedList::empty(T::default());
    for field in command.parameters() {
        list.push(read(&field)).ok()?;
    }
    Some(list)
}
