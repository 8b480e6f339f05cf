// One command: judged, and then refused into the error queue, or answered and carried out.
ghost use Rattle.std.specs.Prelude.{◌≡◌, ◌≤◌, length, None};
ghost use Rattle.number.specs.Writer.{wrote};
ghost use Rattle.command.specs.Views.{said};
ghost use Rattle.queue.specs.Errors.{entries};
ghost use Rattle.desk.specs.Desks.{model_of};
ghost use Rattle.rules.specs.World.{core_of, world_of};
ghost use Rattle.rules.specs.Kinds.{among, error_commands};
ghost use Rattle.rules.specs.Refusals.{refused_by};
ghost use Rattle.rules.specs.Steps.{accepted, step, reply_bytes, errors_after};
ghost use Rattle.answers.specs.Facts.{FewMembers};
ghost use Rattle.engine.specs.Bounds.{most_reply};

use actions::perform;
use answers::reply;
use asked::kinds::reads_errors;
use checks::judge;
use command::command::Command;
use command::mnemonic::Mnemonic;
use desk::State;
use drive::Drive;
use number::writer::Writer;
use queue::ErrorQueue;

/// TB and TE take out the oldest error.
fn take_told(errors: &mut ErrorQueue, m: Mnemonic)
    ensures { entries errors.new ≡ errors_after (among error_commands m) (entries errors.old) }
{
    if reads_errors(m) {
        let _ = errors.take();
    }
}

/// Answers an accepted command, and carries it out.
#[tactic(auto, using(number::proofs::Wrote::wrote_nothing))]
fn accept<D: Drive>(state: &mut State, drive: &mut D, command: &Command, out: &mut Writer)
    requires { refused_by (core_of state.old.desk (D.Drive.axes drive.old)) (said command.now) ≡ None }
    ensures world { world_of state.new (D.Drive.axes drive.new) ≡ (accepted (world_of state.old (D.Drive.axes drive.old)) (said command.now).mnemonic (said command.now)).world }
    ensures reply { out.new ≡ wrote out.old (reply_bytes (accepted (world_of state.old (D.Drive.axes drive.old)) (said command.now).mnemonic (said command.now)).outcome) }
    ensures short { FewMembers (model_of state.old.desk) → length (reply_bytes (accepted (world_of state.old (D.Drive.axes drive.old)) (said command.now).mnemonic (said command.now)).outcome) ≤ most_reply (said command.now) }
{
    let Some(m) = command.mnemonic else {
        return;
    };
    reply(state, drive, m, command, out);
    perform(&mut state.desk, drive, command);
    take_told(&mut state.errors, m);
}

/// THE step of a command, whose reply is written. A refused command changes nothing but the error queue.
#[tactic(auto, using(number::proofs::Wrote::wrote_nothing))]
pub fn execute<D: Drive>(state: &mut State, drive: &mut D, command: &Command, out: &mut Writer)
    ensures world { world_of state.new (D.Drive.axes drive.new) ≡ (step (world_of state.old (D.Drive.axes drive.old)) (said command.now)).world }
    ensures reply { out.new ≡ wrote out.old (reply_bytes (step (world_of state.old (D.Drive.axes drive.old)) (said command.now)).outcome) }
    ensures short { FewMembers (model_of state.old.desk) → length (reply_bytes (step (world_of state.old (D.Drive.axes drive.old)) (said command.now)).outcome) ≤ most_reply (said command.now) }
{
    match judge(&state.desk, drive, command) {
        Ok(()) => accept(state, drive, command, out),
        Err(entry) => state.errors.push(entry),
    }
}
