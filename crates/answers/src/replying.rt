// What an accepted command replies.
ghost use Rattle.std.specs.Prelude.{◌≡◌, ◌≤◌, length, if◌then◌else◌};
ghost use Rattle.number.specs.Writer.{wrote};
ghost use Rattle.command.specs.Views.{said};
ghost use Rattle.queue.specs.Errors.{entries};
ghost use Rattle.desk.specs.Desks.{model_of};
ghost use Rattle.rules.specs.World.{world_of};
ghost use Rattle.rules.specs.Kinds.{among, error_commands};
ghost use Rattle.rules.specs.Refusals.{has_prefix};
ghost use Rattle.rules.specs.Steps.{replies};
ghost use Rattle.asked.specs.Seen.{seen};
ghost use Rattle.answers.specs.Facts.{FewMembers, Wrote};
ghost use Rattle.answers.specs.Parts.{error_reply, answering, answer_reply};

use crate::answer::write_answer;
use crate::error_texts::{write_code, write_message};
use asked::kinds::{reads_errors, tells};
use asked::{Case, View};
use command::command::Command;
use command::mnemonic::Mnemonic;
use desk::State;
use drive::Drive;
use number::writer::Writer;
use queue::ErrorQueue;

/// Writes the reply of TE or TB; nothing for any other command.
#[tactic(auto, using(number::proofs::Wrote::wrote_nothing, number::proofs::Wrote::wrote_after, crate::proofs::Joins::joined))]
fn reply_error(errors: &ErrorQueue, m: Mnemonic, out: &mut Writer)
    ensures { Wrote out.old out.new (error_reply (entries errors.now) m) (if among error_commands m then 52 else 0) }
{
    match m {
        Mnemonic::Te => {
            write_code(errors, out);
            out.line_end();
        }
        Mnemonic::Tb => {
            write_message(errors, out);
            out.line_end();
        }
        _ => {}
    }
}

/// Whether a command other than TE and TB answers.
fn answers<D: Drive>(case: &Case<D>) -> bool
    ensures { result ≡ answering case.now.m (said case.now.command.now) }
{
    (case.asks() || tells(case.m)) && !reads_errors(case.m)
}

/// Writes the reply of a command other than TE and TB; nothing where it does not answer.
#[tactic(auto, using(number::proofs::Wrote::wrote_nothing, number::proofs::Wrote::wrote_after, crate::proofs::Joins::wanted, crate::proofs::Joins::unwanted, crate::proofs::Joins::joined))]
fn reply_answer<D: Drive>(case: &Case<D>, out: &mut Writer)
    ensures text { out.new ≡ wrote out.old (answer_reply (seen D.Drive.axes case.now.view) case.now.m (said case.now.command.now)) }
    ensures short { FewMembers (model_of case.now.view.desk.now) → length (answer_reply (seen D.Drive.axes case.now.view) case.now.m (said case.now.command.now)) ≤ (if among error_commands case.now.m then 0 else (if has_prefix (said case.now.command.now) then 158 else 52)) }
{
    if !answers(case) {
        return;
    }
    write_answer(case, out);
    out.line_end();
}

/// Writes the reply of an accepted command, which may tell the oldest error. What the buffer has no room for is left out.
#[tactic(auto, using(number::proofs::Wrote::wrote_after, crate::proofs::Joins::joined))]
pub fn reply<D: Drive>(state: &State, drive: &D, m: Mnemonic, command: &Command, out: &mut Writer)
    ensures text { out.new ≡ wrote out.old (replies (world_of state.now (D.Drive.axes drive.now)) m (said command.now)) }
    ensures short { FewMembers (model_of state.now.desk) → length (replies (world_of state.now (D.Drive.axes drive.now)) m (said command.now)) ≤ (if has_prefix (said command.now) then 158 else 52) }
{
    let view = View {
        desk: &state.desk,
        drive,
    };
    reply_error(&state.errors, m, out);
    reply_answer(&Case { view, m, command }, out);
}
