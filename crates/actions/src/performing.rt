// What a command does, by its mnemonic.
ghost use Rattle.std.specs.Prelude.{◌≡◌, ◌-◌, ◌^◌, None, ◌==◌};
ghost use Rattle.command.specs.Views.{said};
ghost use Rattle.rules.specs.World.{core_of};
ghost use Rattle.rules.specs.Refusals as R;
ghost use Rattle.rules.specs.Deeds as Deeds;
ghost use Rattle.actions.specs.Narrow.{fitting};
ghost use Rattle.actions.specs.Fits.{Fits};

use crate::fitting::settings_fit;
use crate::grouping::{abort, dissolve, form, power_group_off, power_group_on, send_given};
use crate::moving::{move_by, move_to};
use crate::narrowing::{narrow_i32, narrow_u8, narrow_u32};
use asked::naming::{asks, axis_named, group_named};
use asked::values::{given, whole_value};
use command::command::Command;
use command::mnemonic::Mnemonic;
use desk::Desk;
use drive::Drive;
use motion::{beats, wait_axis, wait_every, wait_group};

/// Until the axis rests; 0 means all axes.
fn wait_still<D: Drive>(desk: &mut Desk, drive: &mut D, axis: usize)
    ensures { core_of desk.new (D.Drive.axes drive.new) ≡ (Deeds.wait_for (Deeds.still (axis == 0) axis) (core_of desk.old (D.Drive.axes drive.old))).core }
{
    if axis == 0 {
        wait_every(desk, drive);
    } else {
        wait_axis(desk, drive, axis);
    }
}

/// So many beats as the value says.
fn wait_beats<D: Drive>(desk: &mut Desk, drive: &mut D, value: i64)
    ensures { core_of desk.new (D.Drive.axes drive.new) ≡ (Deeds.beats (fitting (2 ^ 32 - 1) (R.whole_value value)) (core_of desk.old (D.Drive.axes drive.old))).core }
{
    beats(desk, drive, narrow_u32(whole_value(value)));
}

/// What a command does that does not ask. Desk and drive change, so it takes no `Case`.
fn act<D: Drive>(desk: &mut Desk, drive: &mut D, m: Mnemonic, command: &Command)
    requires { Fits (core_of desk.old (D.Drive.axes drive.old)) m (said command.now) }
    ensures { core_of desk.new (D.Drive.axes drive.new) ≡ (Deeds.does (core_of desk.old (D.Drive.axes drive.old)) m (said command.now)).core }
{
    let axis = axis_named(command);
    let group = group_named(desk, command);
    let value = given(command);
    let figure = narrow_u32(value.unsigned_abs());
    let position = narrow_i32(value);
    match m {
        Mnemonic::Va => _ = desk.set_velocity(axis, figure),
        Mnemonic::Ac => _ = desk.set_acceleration(axis, figure),
        Mnemonic::Ag => _ = desk.set_deceleration(axis, figure),
        Mnemonic::Sl => _ = desk.set_left(axis, position),
        Mnemonic::Sr => _ = desk.set_right(axis, position),
        Mnemonic::Fp => _ = desk.set_digits(axis, narrow_u8(whole_value(value))),
        Mnemonic::Mo => _ = drive.power_on(axis),
        Mnemonic::Mf => _ = drive.power_off(axis),
        Mnemonic::Pa => move_to(desk, drive, axis, position),
        Mnemonic::Pr => move_by(desk, drive, axis, value),
        Mnemonic::St => _ = drive.stop(axis),
        Mnemonic::Dh => _ = drive.set_position(axis, position),
        Mnemonic::Ws => wait_still(desk, drive, axis),
        Mnemonic::Hn => form(desk, group, command),
        Mnemonic::Hx => dissolve(desk, drive, group),
        Mnemonic::Hv => _ = desk.set_group_velocity(group, figure),
        Mnemonic::Ha => _ = desk.set_group_acceleration(group, figure),
        Mnemonic::Hd => _ = desk.set_group_deceleration(group, figure),
        Mnemonic::Ho => power_group_on(desk, drive, group),
        Mnemonic::Hf => power_group_off(desk, drive, group),
        Mnemonic::Hl => send_given(desk, drive, group, command),
        Mnemonic::Hw => wait_group(desk, drive, group),
        Mnemonic::Ab => abort(desk, drive),
        Mnemonic::Wt => wait_beats(desk, drive, value),
        Mnemonic::Id | Mnemonic::Tp | Mnemonic::Dp | Mnemonic::Md => {}
        Mnemonic::Hp | Mnemonic::Tb | Mnemonic::Te => {}
    }
}

/// THE deed of an accepted command. Asking does nothing.
pub fn perform<D: Drive>(desk: &mut Desk, drive: &mut D, command: &Command)
    requires { R.refused_by (core_of desk.old (D.Drive.axes drive.old)) (said command.now) ≡ None }
    ensures { core_of desk.new (D.Drive.axes drive.new) ≡ (Deeds.perform (core_of desk.old (D.Drive.axes drive.old)) (said command.now)).core }
{
    let Some(m) = command.mnemonic else {
        return;
    };
    if !asks(m, command) {
        settings_fit(desk);
        act(desk, drive, m, command);
    }
}
