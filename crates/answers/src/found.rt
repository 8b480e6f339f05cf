// The axis and the group that a command names, by numbers that find them.
ghost use Rattle.std.specs.Prelude.{◌≡◌, ◌≤◌, length, if◌then◌else◌};
ghost use Rattle.command.specs.Commands.{capped};
ghost use Rattle.command.specs.Views.{said};
ghost use Rattle.desk.specs.Desks.{model_of};
ghost use Rattle.rules.specs.World.{settings, axis_at, group, members};
ghost use Rattle.rules.specs.Refusals.{has_prefix, axis_named, group_named};
ghost use Rattle.asked.specs.Seen.{seen};
ghost use Rattle.answers.specs.Facts.{FewMembers};

use asked::Case;
use drive::Drive;

/// The axis named, 1000 where its number is larger: there are fewer.
pub(crate) fn axis_found<D: Drive>(case: &Case<D>) -> usize
    ensures number { result ≡ capped (axis_named (said case.now.command.now)) }
    ensures on_desk { settings (seen D.Drive.axes case.now.view) result ≡ settings (seen D.Drive.axes case.now.view) (axis_named (said case.now.command.now)) }
    ensures on_drive { axis_at (seen D.Drive.axes case.now.view) result ≡ axis_at (seen D.Drive.axes case.now.view) (axis_named (said case.now.command.now)) }
{
    case.axis_named()
}

/// The group named, 1000 where its number is larger: there are fewer. A command without a prefix names a group of few members, or none.
pub(crate) fn group_found<D: Drive>(case: &Case<D>) -> usize
    ensures number { result ≡ capped (group_named (seen D.Drive.axes case.now.view) (said case.now.command.now)) }
    ensures on_desk { group (seen D.Drive.axes case.now.view) result ≡ group (seen D.Drive.axes case.now.view) (group_named (seen D.Drive.axes case.now.view) (said case.now.command.now)) }
    ensures few { FewMembers (model_of case.now.view.desk.now) → length (members (seen D.Drive.axes case.now.view) (group_named (seen D.Drive.axes case.now.view) (said case.now.command.now))) ≤ (if has_prefix (said case.now.command.now) then 12 else 3) }
{
    case.group_named()
}
