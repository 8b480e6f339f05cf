ghost use Rattle.std.specs.Prelude.{◌≡◌, []};
ghost use Rattle.queue.specs.Errors.{entries};
ghost use Rattle.setup.specs.Setups.{records_in};
ghost use Rattle.desk.specs.Desks.{model_of, unopened_desk, opened_desk};

use crate::desk_state::Desk;
use queue::ErrorQueue;
use setup::Setup;

// All that the console keeps: the desk, and the errors that wait.
#[derive(Clone, Copy)]
pub struct State {
    pub desk: Desk,
    pub errors: ErrorQueue,
}

impl State {
    // Before an opening: no axes, no errors.
    pub fn unopened() -> State
        ensures desk { model_of result.desk ≡ unopened_desk }
        ensures errors { entries result.errors ≡ [] }
    {
        let errors = ErrorQueue::new();
        State {
            desk: Desk::unopened(),
            errors,
        }
    }

    // After an opening: an axis for each record, all groups free, no errors.
    pub fn opened(setup: &Setup) -> State
        ensures desk { model_of result.desk ≡ opened_desk (records_in setup.now) }
        ensures errors { entries result.errors ≡ [] }
    {
        State {
            desk: Desk::opened(setup),
            errors: ErrorQueue::new(),
        }
    }
}
