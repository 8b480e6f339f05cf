// Beats: one tick of the drive, and what the groups do after it.
ghost use Rattle.std.specs.Prelude.{◌≡◌, true};
ghost use Rattle.rules.specs.World.{core_of, numbers};
ghost use Rattle.rules.specs.Deeds as Deeds;

use crate::asking::{all_powered, all_rest};
use crate::telling::start_all;
use desk::Desk;
use drive::Drive;

/// The first waypoint is taken out and started with the group's profile.
#[tactic(auto, using(crate::proofs::Loops::none_first))]
fn start_waypoint<D: Drive>(desk: &mut Desk, drive: &mut D, group: usize)
    ensures { core_of desk.new (D.Drive.axes drive.new) ≡ (Deeds.set_off true group (core_of desk.old (D.Drive.axes drive.old))).core }
{
    let members = desk.members(group);
    let profile = desk.group_profile(group);
    if let Some(first) = desk.take_waypoint(group) {
        start_all(drive, profile, members.axes(), first.positions());
    }
}

/// The first waypoint is started; where a member lacks power, all are emptied instead.
fn set_off<D: Drive>(desk: &mut Desk, drive: &mut D, group: usize)
    ensures { core_of desk.new (D.Drive.axes drive.new) ≡ (Deeds.go_on true group (core_of desk.old (D.Drive.axes drive.old))).core }
{
    if all_powered(drive, desk.members(group).axes()) {
        start_waypoint(desk, drive, group);
    } else {
        desk.empty_waypoints(group);
    }
}

/// Sets a group off where all members rest and a waypoint waits.
pub fn advance<D: Drive>(desk: &mut Desk, drive: &mut D, group: usize)
    ensures { core_of desk.new (D.Drive.axes drive.new) ≡ (Deeds.advance group (core_of desk.old (D.Drive.axes drive.old))).core }
{
    if all_rest(drive, desk.members(group).axes()) && desk.waypoint_count(group) > 0 {
        set_off(desk, drive, group);
    }
}

/// The groups from 1 to `count`, in number order.
#[tactic(auto, using(crate::proofs::Loops::numbers_more))]
fn advance_all<D: Drive>(desk: &mut Desk, drive: &mut D, count: usize)
    ensures { core_of desk.new (D.Drive.axes drive.new) ≡ (Deeds.advance_all (numbers count) (core_of desk.old (D.Drive.axes drive.old))).core }
{
    for group in 1..=count {
        advance(desk, drive, group);
    }
}

/// One tick of the drive, then the groups in number order.
pub fn beat<D: Drive>(desk: &mut Desk, drive: &mut D)
    ensures { core_of desk.new (D.Drive.axes drive.new) ≡ (Deeds.beat (core_of desk.old (D.Drive.axes drive.old))).core }
{
    drive.tick();
    let count = desk.group_count();
    advance_all(desk, drive, count);
}

/// So many beats.
#[tactic(auto, using(crate::proofs::Loops::beats_more))]
pub fn beats<D: Drive>(desk: &mut Desk, drive: &mut D, n: u32)
    ensures { core_of desk.new (D.Drive.axes drive.new) ≡ (Deeds.beats n (core_of desk.old (D.Drive.axes drive.old))).core }
{
    for _ in 0..n {
        beat(desk, drive);
    }
}
