ghost use Rattle.std.specs.Prelude.{◌≡◌};
ghost use Rattle.command.specs.Views.{said};
ghost use Rattle.rules.specs.Refusals.{axis_named};

use asked::Case;

/// A case with the number of the axis that its command names; 0 where it names none.
#[derive(Drop)]
pub struct AxisCase<'a, D> {
    pub case: Case<'a, D>,
    pub axis: u8,
    pub ghost named: { axis_named (said case.command.now) ≡ axis },
}
