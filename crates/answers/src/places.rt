// Positions and targets, at the display digits of their axis.
ghost use Rattle.std.specs.Prelude.{◌≡◌, ◌*◌, ◌≤◌, min, map, length};
ghost use Rattle.number.specs.Writer.{wrote};
ghost use Rattle.number.specs.Texts.{position_text, list_text};
ghost use Rattle.desk.specs.Tables.{row_or};
ghost use Rattle.desk.specs.Axes.{no_axis};
ghost use Rattle.desk.specs.Desks.{model_of};
ghost use Rattle.rules.specs.Replies.{position_told};
ghost use Rattle.asked.specs.Seen.{seen};
ghost use Rattle.answers.specs.Facts.{Wrote};

use asked::{View, desk_view, drive_view};
use desk::Desk;
use drive::Drive;
use number::list::{Item, Position};
use number::writer::Writer;

/// A position or a target of an axis.
fn place(desk: &Desk, axis: usize, position: i32) -> Position
    ensures value { result ≡ record { millionths = position; digits = (row_or no_axis axis (model_of desk.now).axes).digits } }
    ensures text { position_text (min result.digits 6) result.millionths ≡ position_text (row_or no_axis axis (model_of desk.now).axes).digits position }
{
    Position {
        millionths: i64::from(position),
        digits: usize::from(desk_view::digits(desk, axis)),
    }
}

/// Writes a position or a target of an axis.
#[tactic(auto, using(number::proofs::Lengths::position_short, std::proofs::lemmas::Int::ints))]
pub(crate) fn write_place(desk: &Desk, axis: usize, position: i32, out: &mut Writer)
    ensures { Wrote out.old out.new (position_text (row_or no_axis axis (model_of desk.now).axes).digits position) 12 }
{
    place(desk, axis, position).put(out);
}

/// Writes where axes stand, parted by commas.
pub(crate) fn write_places<D: Drive>(view: View<D>, axes: &[u8], out: &mut Writer)
    ensures text { out.new ≡ wrote out.old (list_text (map (position_told (seen D.Drive.axes view.entry)) axes.now)) }
    ensures short { length (list_text (map (position_told (seen D.Drive.axes view.entry)) axes.now)) ≤ length axes.now * 13 }
{
    out.list_of(axes, |axis| {
        let axis = usize::from(axis);
        place(view.desk, axis, drive_view::position(view.drive, axis))
    });
}
