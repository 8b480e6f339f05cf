// Texts of plain values.
ghost use Rattle.std.specs.Prelude.{◌^◌, ◌<◌, unsigned_abs};
ghost use Rattle.number.specs.Texts.{whole_text, setting_text};
ghost use Rattle.rules.specs.Replies.{flag_text};
ghost use Rattle.answers.specs.Facts.{Wrote};

use number::writer::Writer;

/// Writes 1 for yes, 0 for no.
#[tactic(auto, using(crate::proofs::Widths::flag_short))]
pub(crate) fn write_flag(out: &mut Writer, yes: bool)
    ensures { Wrote out.old out.new (flag_text yes) 1 }
{
    out.whole(u64::from(yes));
}

/// Writes a whole number.
#[tactic(auto, using(crate::proofs::Widths::number_short))]
pub(crate) fn write_number(out: &mut Writer, n: u16)
    ensures { Wrote out.old out.new (whole_text n) 5 }
{
    out.whole(u64::from(n));
}

/// Writes a figure of a profile or a limit of an axis.
#[tactic(auto, using(number::proofs::Lengths::setting_short))]
pub(crate) fn write_setting(out: &mut Writer, millionths: i64)
    requires { unsigned_abs millionths < 2 ^ 32 }
    ensures { Wrote out.old out.new (setting_text millionths) 12 }
{
    out.setting(millionths);
}
