// Waits: beats until a test passes, 60,000 at most.
ghost use Rattle.std.specs.Prelude.{◌≡◌, Bool, true, false};
ghost use Rattle.rules.specs.World.{Core, core_of};
ghost use Rattle.rules.specs.Deeds as Deeds;
ghost use Rattle.motion.specs.Goals.{Tests};

use crate::asking::{all_rest, every_rests};
use crate::beating::beat;
use asked::drive_view::rests;
use desk::Desk;
use drive::Drive;

/// The most beats that a wait makes. A function with a contract: of a constant with a wrong value the check of `wait_for` finds out nothing,
/// since it counts the beats out until it reaches a limit.
fn longest_wait() -> u32
    ensures { result ≡ 60000 }
{
    60_000
}

/// All members rest, and no waypoint waits. Its caller holds desk and drive apart, by `&mut`.
fn group_rests<D: Drive>(desk: &Desk, drive: &D, group: usize) -> bool
    ensures { result ≡ Deeds.group_still group (core_of desk.now (D.Drive.axes drive.now)) }
{
    all_rest(drive, desk.members(group).axes()) && desk.waypoint_count(group) == 0
}

/// Beats until the test passes, `most` at most: a parameter, so that no proof counts 60,000 beats out.
#[tactic(auto, using(crate::proofs::Loops::wait_over, crate::proofs::Loops::wait_more))]
fn wait<D: Drive, F: Fn(&Desk, &D) -> bool>(desk: &mut Desk, drive: &mut D, most: u32, reached: F)
    requires { F.IsAlwaysCallable reached }
    ensures { (goal : Core → Bool) → Tests D.Drive.axes (F.post reached) goal → core_of desk.new (D.Drive.axes drive.new) ≡ (Deeds.wait most (goal (core_of desk.old (D.Drive.axes drive.old))) goal (core_of desk.old (D.Drive.axes drive.old))).core }
{
    for _ in 0..most {
        if reached(desk, drive) {
            return;
        }
        beat(desk, drive);
    }
}

/// 60,000 beats at most.
fn wait_for<D: Drive, F: Fn(&Desk, &D) -> bool>(desk: &mut Desk, drive: &mut D, reached: F)
    requires { F.IsAlwaysCallable reached }
    ensures { (goal : Core → Bool) → Tests D.Drive.axes (F.post reached) goal → core_of desk.new (D.Drive.axes drive.new) ≡ (Deeds.wait_for goal (core_of desk.old (D.Drive.axes drive.old))).core }
{
    wait(desk, drive, longest_wait(), reached);
}

/// Until the axis rests.
pub fn wait_axis<D: Drive>(desk: &mut Desk, drive: &mut D, axis: usize)
    ensures { core_of desk.new (D.Drive.axes drive.new) ≡ (Deeds.wait_for (Deeds.still false axis) (core_of desk.old (D.Drive.axes drive.old))).core }
{
    wait_for(desk, drive, |_, drive| rests(drive, axis));
}

/// Until every axis rests.
pub fn wait_every<D: Drive>(desk: &mut Desk, drive: &mut D)
    ensures { core_of desk.new (D.Drive.axes drive.new) ≡ (Deeds.wait_for (Deeds.still true 0) (core_of desk.old (D.Drive.axes drive.old))).core }
{
    wait_for(desk, drive, |desk, drive| {
        every_rests(drive, desk.axis_count())
    });
}

/// Until all members of the group rest and none of its waypoints waits.
pub fn wait_group<D: Drive>(desk: &mut Desk, drive: &mut D, group: usize)
    ensures { core_of desk.new (D.Drive.axes drive.new) ≡ (Deeds.wait_for (Deeds.group_still group) (core_of desk.old (D.Drive.axes drive.old))).core }
{
    wait_for(desk, drive, |desk, drive| group_rests(desk, drive, group));
}
