// What TE and TB tell of the oldest error.
ghost use Rattle.std.specs.Prelude.{◌≡◌};
ghost use Rattle.queue.specs.Errors.{entries};
ghost use Rattle.rules.specs.Replies.{oldest, code_text, message_text};
ghost use Rattle.answers.specs.Facts.{Wrote};

use crate::plain::write_number;
use number::writer::Writer;
use queue::{ErrorQueue, Fault, code_told, message_told};

/// The fault of the oldest error, if one waits.
fn oldest(errors: &ErrorQueue) -> Option<Fault>
    ensures { result ≡ oldest (entries errors.now) }
{
    errors.nth(1).map(|entry| entry.fault)
}

/// Writes the code of the oldest error.
pub(crate) fn write_code(errors: &ErrorQueue, out: &mut Writer)
    ensures { Wrote out.old out.new (code_text (entries errors.now)) 5 }
{
    write_number(out, code_told(oldest(errors)));
}

/// Writes the code of the oldest error, a comma, a blank and its message.
#[tactic(auto, using(number::proofs::Wrote::wrote_after, crate::proofs::Widths::message_text_short))]
pub(crate) fn write_message(errors: &ErrorQueue, out: &mut Writer)
    ensures { Wrote out.old out.new (message_text (entries errors.now)) 50 }
{
    write_code(errors, out);
    out.text(b", ");
    out.text(message_told(oldest(errors)));
}
