// Walks over the commands of a line.
ghost use Rattle.std.specs.Prelude.{◌≡◌, length, is_some};
ghost use Rattle.std.specs.List.{count_by};
ghost use Rattle.command.specs.Commands.{commands_of};
ghost use Rattle.command.specs.Views.{said};

use command::command::Command;
use command::commands::Commands;

/// How many commands of a line have a mnemonic that is known.
pub fn count_known(line: &[u8]) -> usize
    ensures { result ≡ count_by (λ c. is_some c.mnemonic) (commands_of line.now) }
{
    Commands::of(line)
        .filter(|command| command.mnemonic.is_some())
        .count()
}

/// How many parameters a command has.
pub(crate) fn count_parameters(command: &Command) -> usize
    ensures { result ≡ length (said command.now).parameters }
{
    command.parameters().count()
}
