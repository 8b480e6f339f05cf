// Whom a command names, and whether it asks.
ghost use Rattle.std.specs.Prelude.{◌≡◌, length, if◌then◌else◌, nat_eq};
ghost use Rattle.command.specs.Commands.{prefix_number, capped};
ghost use Rattle.command.specs.Views.{said};
ghost use Rattle.desk.specs.Desks.{model_of};
ghost use Rattle.rules.specs.Refusals.{asking, axis_named, number_or};

use crate::kinds::offers_question;
use command::command::Command;
use command::mnemonic::Mnemonic;
use desk::Desk;

/// Its rest is a question mark, and it offers one.
pub fn asks(m: Mnemonic, command: &Command) -> bool
    ensures { result ≡ asking m (said command.now) }
{
    command.question().is_some() && offers_question(m)
}

/// The axis that an axis command names, 1000 where it is larger; 0 where it names none, as the rules count it: to WS both mean all axes.
pub fn axis_named(command: &Command) -> usize
    ensures { result ≡ capped (axis_named (said command.now)) }
{
    command.prefix_number().unwrap_or(0) as usize
}

/// The group that a group command names, 1000 where it is larger; where there is one group, it may be left out.
pub fn group_named(desk: &Desk, command: &Command) -> usize
    ensures { result ≡ capped (number_or (if nat_eq (length (model_of desk.now).groups) 1 then 1 else 0) (prefix_number (said command.now))) }
{
    let alone = u32::from(desk.group_count() == 1);
    command.prefix_number().unwrap_or(alone) as usize
}
