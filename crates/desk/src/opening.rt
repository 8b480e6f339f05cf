ghost use Rattle.std.specs.Prelude.{◌≡◌, ◌/◌, ◌≤◌, true, map, length, replicate};
ghost use Rattle.fixed.specs.Lists.{held};
ghost use Rattle.setup.specs.Setups.{records_in};
ghost use Rattle.desk.specs.Axes.{opened_axis, short};
ghost use Rattle.groups.specs.Groups.{group_model, free_group};
ghost use Rattle.desk.specs.Desks.{model_of, unopened_desk, opened_desk};

use crate::axis_settings::AxisSettings;
use crate::desk_state::Desk;
use fixed::FixedList;
use groups::Group;
use setup::Setup;

fn axis_table(setup: &Setup) -> FixedList<AxisSettings, 12>
    ensures axes { held result ≡ map opened_axis (records_in setup.now) }
    ensures digits { short (held result) ≡ true }
{
    let mut axes = FixedList::empty(AxisSettings::default());
    for record in setup.records() {
        let _ = axes.push(AxisSettings::opened(record));
    }
    axes
}

// Half as many free groups as there are axes.
fn free_groups(axis_count: usize) -> FixedList<Group, 6>
    requires { axis_count ≤ 12 }
    ensures free { map group_model (held result) ≡ replicate (axis_count / 2) free_group }
    ensures size { length (held result) ≡ axis_count / 2 }
{
    FixedList::repeated(Group::free(), axis_count / 2)
}

impl Desk {
    // Before an opening: no axes.
    pub fn unopened() -> Desk
        ensures { model_of result ≡ unopened_desk }
    {
        Desk {
            axes: FixedList::empty(AxisSettings::default()),
            groups: FixedList::empty(Group::free()),
        }
    }

    // After an opening: an axis for each record, all groups free.
    pub fn opened(setup: &Setup) -> Desk
        ensures { model_of result ≡ opened_desk (records_in setup.now) }
    {
        Desk {
            axes: axis_table(setup),
            groups: free_groups(setup.count()),
        }
    }
}
