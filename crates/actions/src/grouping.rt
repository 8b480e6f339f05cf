// What commands do with groups.
ghost use Rattle.std.specs.Prelude.{◌≡◌, ◌-◌, ◌^◌, map, length};
ghost use Rattle.drive.specs.Calls as Calls;
ghost use Rattle.command.specs.Views.{said};
ghost use Rattle.desk.specs.Desks as Desks;
ghost use Rattle.desk.specs.Desks.{model_of, group_at};
ghost use Rattle.rules.specs.World as World;
ghost use Rattle.rules.specs.World.{core_of};
ghost use Rattle.rules.specs.Refusals as R;
ghost use Rattle.rules.specs.Deeds as Deeds;
ghost use Rattle.actions.specs.Narrow.{fitting, as_position};
ghost use Rattle.actions.specs.Fits.{has_to_wait, sent};

use crate::collecting::{axis_said, collect, position_said};
use command::command::Command;
use desk::Desk;
use drive::Drive;
use motion::{all_rest, power_off_all, power_on_all, start_all, stop_all, stop_every};

/// Forms a group of the axes that the parameters name.
pub(crate) fn form(desk: &mut Desk, group: usize, command: &Command)
    ensures { model_of desk.new ≡ (Desks.formed group (map (λ f. fitting (2 ^ 8 - 1) (R.units f)) (said command.now).parameters) (model_of desk.old)).1 }
{
    if let Some(axes) = collect(command, axis_said) {
        desk.form(group, axes.as_slice());
    }
}

/// Stops the members and frees them.
pub(crate) fn dissolve<D: Drive>(desk: &mut Desk, drive: &mut D, group: usize)
    ensures desk { model_of desk.new ≡ (Desks.dissolved group (model_of desk.old)).1 }
    ensures drive { D.Drive.axes drive.new ≡ Calls.replay (map Calls.stop (group_at group (model_of desk.old)).members) (D.Drive.axes drive.old) }
{
    stop_all(drive, desk.members(group).axes());
    desk.dissolve(group);
}

pub(crate) fn power_group_on<D: Drive>(desk: &Desk, drive: &mut D, group: usize)
    ensures { D.Drive.axes drive.new ≡ Calls.replay (map Calls.power_on (group_at group (model_of desk.now)).members) (D.Drive.axes drive.old) }
{
    power_on_all(drive, desk.members(group).axes());
}

/// No power, and no waypoints.
pub(crate) fn power_group_off<D: Drive>(desk: &mut Desk, drive: &mut D, group: usize)
    ensures desk { model_of desk.new ≡ Desks.waypoints_emptied group (model_of desk.old) }
    ensures drive { D.Drive.axes drive.new ≡ Calls.replay (map Calls.power_off (group_at group (model_of desk.old)).members) (D.Drive.axes drive.old) }
{
    power_off_all(drive, desk.members(group).axes());
    desk.empty_waypoints(group);
}

/// Whether a waypoint has to wait: a member moves, or others wait. Its caller holds desk and drive apart, by `&mut`.
fn has_to_wait<D: Drive>(desk: &Desk, drive: &D, group: usize) -> bool
    ensures { result ≡ has_to_wait group (core_of desk.now (D.Drive.axes drive.now)) }
{
    !all_rest(drive, desk.members(group).axes()) || desk.waypoint_count(group) > 0
}

/// A waypoint joins the queue where it has to wait; else the members are started to it.
fn send<D: Drive>(desk: &mut Desk, drive: &mut D, group: usize, positions: &[i32])
    ensures { core_of desk.new (D.Drive.axes drive.new) ≡ (Deeds.send (has_to_wait group (core_of desk.old (D.Drive.axes drive.old))) group positions.now (core_of desk.old (D.Drive.axes drive.old))).core }
{
    if has_to_wait(desk, drive, group) {
        desk.queue_waypoint(group, positions);
    } else {
        let profile = desk.group_profile(group);
        start_all(drive, profile, desk.members(group).axes(), positions);
    }
}

/// Sends a group to the waypoint that the parameters say; more than 12 positions are none.
pub(crate) fn send_given<D: Drive>(desk: &mut Desk, drive: &mut D, group: usize, command: &Command)
    ensures { core_of desk.new (D.Drive.axes drive.new) ≡ sent group (map (λ f. as_position (R.value f)) (said command.now).parameters) (core_of desk.old (D.Drive.axes drive.old)) }
{
    if let Some(positions) = collect(command, position_said) {
        send(desk, drive, group, positions.as_slice());
    }
}

/// Empties the waypoints of all groups.
fn empty_all(desk: &mut Desk)
    ensures { model_of desk.new ≡ Deeds.all_emptied (model_of desk.old) }
{
    for number in 1..=desk.group_count() {
        desk.empty_waypoints(number);
    }
}

/// Stops all axes and empties the waypoints of all groups.
pub(crate) fn abort<D: Drive>(desk: &mut Desk, drive: &mut D)
    ensures desk { model_of desk.new ≡ Deeds.all_emptied (model_of desk.old) }
    ensures drive { D.Drive.axes drive.new ≡ Calls.replay (map Calls.stop (World.numbers (length (model_of desk.old).axes))) (D.Drive.axes drive.old) }
{
    stop_every(drive, desk.axis_count());
    empty_all(desk);
}
