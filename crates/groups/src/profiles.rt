ghost use Rattle.std.specs.Prelude.{◌≡◌};
ghost use Rattle.groups.specs.Profiles.{lesser};

use drive::Profile;

// The lesser of two profiles, figure by figure.
pub fn lesser(p: Profile, q: Profile) -> Profile
    ensures { result ≡ lesser p q }
{
    Profile {
        velocity: p.velocity.min(q.velocity),
        acceleration: p.acceleration.min(q.acceleration),
        deceleration: p.deceleration.min(q.deceleration),
    }
}
