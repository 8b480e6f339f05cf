ghost use Rattle.answers.specs.Facts.{FewMembers};
ghost use Rattle.desk.specs.Desks.{model_of};

use desk::State;

/// The console, which its caller holds: settings, groups and errors. It has no axes before it is opened.
#[derive(Clone, Copy)]
pub struct Console {
    pub(crate) state: State,
    // No group has more members than there are axes, so that replies fit.
    ghost few: { FewMembers (model_of state.desk) },
}
