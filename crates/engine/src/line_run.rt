// The commands of a line in turn.
ghost use Rattle.std.specs.Prelude.{◌≡◌, ◌+◌, ◌*◌, ◌≤◌, length};
ghost use Rattle.number.specs.Writing.{write};
ghost use Rattle.number.specs.Writer.{wrote};
ghost use Rattle.command.specs.Commands.{commands_of};
ghost use Rattle.desk.specs.Desks.{model_of};
ghost use Rattle.rules.specs.World.{world_of};
ghost use Rattle.rules.specs.Steps.{run_commands, outcomes, all_replies};
ghost use Rattle.answers.specs.Facts.{FewMembers};
ghost use Rattle.engine.specs.Bounds.{Whole};

use crate::command_step::execute;
use command::commands::Commands;
use desk::State;
use drive::Drive;
use number::writer::Writer;

/// Carries out the commands of a line, and writes their replies one behind the other. Where no group has more members than there are
/// axes, this stays so, and the replies have at most 40 bytes for each byte of the line and one more.
fn run_each<D: Drive>(state: &mut State, drive: &mut D, line: &[u8], out: &mut Writer)
    ensures world { world_of state.new (D.Drive.axes drive.new) ≡ run_commands (world_of state.old (D.Drive.axes drive.old)) (commands_of line.now) }
    ensures reply { out.new ≡ wrote out.old (all_replies (outcomes (world_of state.old (D.Drive.axes drive.old)) (commands_of line.now))) }
    ensures few { FewMembers (model_of state.old.desk) → FewMembers (model_of state.new.desk) }
    ensures short { FewMembers (model_of state.old.desk) → length (all_replies (outcomes (world_of state.old (D.Drive.axes drive.old)) (commands_of line.now))) ≤ 40 * (length line.now + 1) }
{
    for command in Commands::of(line) {
        execute(state, drive, &command, out);
    }
}

/// Carries out the commands of a line. Their replies stand one behind the other from the buffer's first byte; the answer is how
/// many bytes they have. Where no group has more members than there are axes, this stays so, and the replies of a line of up to
/// 80 bytes fit into 4096 bytes.
#[tactic(auto, unfolding(number::specs::Writer::wrote))]
pub fn run_line<D: Drive>(state: &mut State, drive: &mut D, line: &[u8], out: &mut [u8]) -> usize
    ensures world { world_of state.new (D.Drive.axes drive.new) ≡ run_commands (world_of state.old (D.Drive.axes drive.old)) (commands_of line.now) }
    ensures reply { (result, out.new) ≡ write out.old 0 (all_replies (outcomes (world_of state.old (D.Drive.axes drive.old)) (commands_of line.now))) }
    ensures few { FewMembers (model_of state.old.desk) → FewMembers (model_of state.new.desk) }
    ensures whole { FewMembers (model_of state.old.desk) → length line.now ≤ 80 → 4096 ≤ length out.old → Whole (all_replies (outcomes (world_of state.old (D.Drive.axes drive.old)) (commands_of line.now))) result out.new }
{
    let mut replies = Writer::at(out, 0);
    run_each(state, drive, line, &mut replies);
    replies.offset()
}
