ghost use Rattle.std.specs.Prelude.{◌≡◌};
ghost use Rattle.groups.specs.Groups.{group_model, free_group};

use crate::group::Group;
use crate::members::Members;
use drive::Profile;
use queue::Route;

impl Group {
    // A group without members. No `Default` beside it: the name says more, and nothing generic makes one.
    pub fn free() -> Group
        ensures { group_model result ≡ free_group }
    {
        Group {
            members: Members::none(),
            profile: Profile::default(),
            route: Route::new(),
        }
    }
}
