ghost use Rattle.std.specs.Prelude.{◌≡◌, ◌/◌, true, length};
ghost use Rattle.fixed.specs.Lists.{held};
ghost use Rattle.desk.specs.Axes.{short};

use crate::axis_settings::AxisSettings;
use fixed::FixedList;
use groups::Group;

// The settings of the axes and the groups, of which there are half as many.
#[derive(Clone, Copy)]
pub struct Desk {
    pub(crate) axes: FixedList<AxisSettings, 12>,
    pub(crate) groups: FixedList<Group, 6>,
    ghost half: { length (held groups) ≡ length (held axes) / 2 },
    ghost digits: { short (held axes) ≡ true },
}
