// What a command answers that asks, or that only asks. Where there is no such axis or group, its name is empty, it has no members,
// and all else is 0.
ghost use Rattle.std.specs.Prelude.{◌≡◌, ◌≤◌, map, length, if◌then◌else◌};
ghost use Rattle.number.specs.Texts.{whole_text, list_text};
ghost use Rattle.number.specs.Writer.{wrote};
ghost use Rattle.command.specs.Views.{said};
ghost use Rattle.desk.specs.Tables.{row_or};
ghost use Rattle.desk.specs.Axes.{no_axis, name_text};
ghost use Rattle.desk.specs.Desks.{model_of};
ghost use Rattle.rules.specs.Refusals.{has_prefix};
ghost use Rattle.rules.specs.Replies.{answer_text};
ghost use Rattle.asked.specs.Seen.{seen};
ghost use Rattle.answers.specs.Facts.{FewMembers, Wrote};

use crate::found::{axis_found, group_found};
use crate::places::{write_place, write_places};
use crate::plain::{write_flag, write_number, write_setting};
use asked::desk_view::{digits, left, own, right, settings};
use asked::drive_view::{position, powered, rests, target};
use asked::{Case, View};
use command::mnemonic::Mnemonic;
use desk::Desk;
use drive::Drive;
use number::list::Whole;
use number::writer::Writer;

#[tactic(auto, using(number::proofs::Wrote::wrote_nothing, crate::proofs::Widths::name_short))]
fn write_name(desk: &Desk, axis: usize, out: &mut Writer)
    ensures { Wrote out.old out.new (name_text (row_or no_axis axis (model_of desk.now).axes)) 32 }
{
    if let Some(found) = settings(desk, axis) {
        out.text(found.stage_name());
    }
}

/// Writes numbers of axes, parted by commas.
fn write_members(axes: &[u8], out: &mut Writer)
    requires { length axes.now ≤ 12 }
    ensures text { out.new ≡ wrote out.old (list_text (map whole_text axes.now)) }
    ensures short { length (list_text (map whole_text axes.now)) ≤ 48 }
{
    out.list_of(axes, |axis| Whole(u64::from(axis)));
}

/// Writes the answer; nothing where the command has none.
#[tactic(auto, using(number::proofs::Wrote::wrote_nothing))]
pub(crate) fn write_answer<D: Drive>(case: &Case<D>, out: &mut Writer)
    ensures text { out.new ≡ wrote out.old (answer_text (seen D.Drive.axes case.now.view) case.now.m (said case.now.command.now)) }
    ensures short { FewMembers (model_of case.now.view.desk.now) → length (answer_text (seen D.Drive.axes case.now.view) case.now.m (said case.now.command.now)) ≤ (if has_prefix (said case.now.command.now) then 156 else 50) }
{
    let View { desk, drive } = case.view;
    let axis = axis_found(case);
    let group = group_found(case);
    match case.m {
        Mnemonic::Va => write_setting(out, i64::from(own(desk, axis).velocity)),
        Mnemonic::Ac => write_setting(out, i64::from(own(desk, axis).acceleration)),
        Mnemonic::Ag => write_setting(out, i64::from(own(desk, axis).deceleration)),
        Mnemonic::Sl => write_setting(out, i64::from(left(desk, axis))),
        Mnemonic::Sr => write_setting(out, i64::from(right(desk, axis))),
        Mnemonic::Fp => write_number(out, u16::from(digits(desk, axis))),
        Mnemonic::Mo | Mnemonic::Mf => write_flag(out, powered(drive, axis)),
        Mnemonic::Pa | Mnemonic::Tp => write_place(desk, axis, position(drive, axis), out),
        Mnemonic::Dp => write_place(desk, axis, target(drive, axis), out),
        Mnemonic::Md => write_flag(out, rests(drive, axis)),
        Mnemonic::Id => write_name(desk, axis, out),
        Mnemonic::Hn => write_members(desk.members(group).axes(), out),
        Mnemonic::Hv => write_setting(out, i64::from(desk.group_profile(group).velocity)),
        Mnemonic::Ha => write_setting(out, i64::from(desk.group_profile(group).acceleration)),
        Mnemonic::Hd => write_setting(out, i64::from(desk.group_profile(group).deceleration)),
        Mnemonic::Hp => write_places(case.view, desk.members(group).axes(), out),
        _ => {}
    }
}
