// The group test, asked of a row's label by reading and of the second label by dominance.
ghost use Rattle.std.specs.Prelude.{◌≡◌};
ghost use Rattle.sets.specs.Groups.{places_of};
ghost use Rattle.labels.specs.GroupTest.{group_test};

use header::profile::Profile;
use sets::groups::Groups;

// Are there no groups, or is one of them among those that are reached? In the release profile: are all that are reached among them?
pub fn passes(profile: Profile, reached: Groups, groups: Groups) -> bool
    ensures { result ≡ group_test profile (places_of reached) (places_of groups) }
{
    match profile {
        Profile::Tree => groups.is_empty() | groups.meets(reached),
        Profile::Release => reached.within(groups),
    }
}
