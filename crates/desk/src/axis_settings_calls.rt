ghost use Rattle.std.specs.Prelude.{◌≡◌};
ghost use Rattle.desk.specs.Axes.{opened_axis, name_text};

use crate::axis_settings::AxisSettings;
use drive::Profile;
use setup::{SetupRecord, text_length};

impl AxisSettings {
    // The settings at the opening: the maxima as own figures, and 4 digits.
    pub fn opened(from: &SetupRecord) -> AxisSettings
        ensures { result ≡ opened_axis from.now }
    {
        AxisSettings {
            name: from.name,
            max_velocity: from.max_velocity,
            max_acceleration: from.max_acceleration,
            left: from.left,
            right: from.right,
            own: Profile {
                velocity: from.max_velocity,
                acceleration: from.max_acceleration,
                deceleration: from.max_acceleration,
            },
            digits: 4,
        }
    }

    // The stage name without the zero bytes behind it.
    pub fn stage_name(&self) -> &[u8]
        ensures { result.now ≡ name_text self.now }
    {
        let n = text_length(&self.name);
        &self.name[..n]
    }
}
