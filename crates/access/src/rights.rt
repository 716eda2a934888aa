// What a user's record and a session label give together: found once for each session label.
ghost use Rattle.std.specs.Prelude.{◌<◌, ◌≡◌};
ghost use Rattle.sets.specs.Sets.{intersection, all_below};
ghost use Rattle.sets.specs.Groups.{places_of};
ghost use Rattle.header.specs.Layout.{users, groups, profile_of, by_profile};
ghost use Rattle.header.specs.Limits.{Counted};
ghost use Rattle.hierarchy.specs.Below as hierarchy;
ghost use Rattle.hierarchy.specs.Below.{Tabled};
ghost use Rattle.labels.specs.Label.{marks_of};
ghost use Rattle.access.specs.Rights.{rights_of, rights_at, between};

use header::edition::edition_of;
use header::layout;
use header::layout::Kind;
use header::profile::{Profile, profile_of};
use hierarchy::group_rules::reach;
use hierarchy::table::Table;
use labels::label::Label;
use records::users;
use sets::groups::Groups;
use sets::word;

// lowest ≤ level ≤ highest
pub fn is_between(lowest: u8, highest: u8, level: u8) -> bool
    ensures { result ≡ between lowest highest level }
{
    (lowest <= level) & (level <= highest)
}

#[derive(Clone, Copy)]
pub struct View {
    // The image's.
    pub profile: Profile,
    // The session's level and compartments, and what its groups reach.
    pub level: u8,
    pub compartments: u64,
    pub reached_groups: Groups,
    // Its write sets.
    pub write_compartments: u64,
    pub write_groups: Groups,
    // The user's.
    pub minimum: u8,
    pub maximum: u8,
    pub privileges: u8,
}

// The session's write groups, from what its groups reach and the user's write groups; in the release profile all that exist.
fn write_groups_of(image: &[u8], table: &Table, reached: Groups, write: Groups) -> Groups
    requires { Counted image.now × Tabled image.now table.now }
    ensures { places_of result ≡ by_profile (profile_of image.now) (intersection (places_of reached) (hierarchy.reach image.now (places_of write))) (all_below (groups image.now)) }
{
    match profile_of(image) {
        Profile::Tree => reached.intersection(reach(image, table, write)),
        Profile::Release => Groups::all_below(layout::groups(image)),
    }
}

pub fn rights_at(image: &[u8], table: &Table, u: usize, label: Label) -> View
    requires { Counted image.now × (Tabled image.now table.now × (u < users image.now)) }
    ensures { rights_of result ≡ rights_at image.now u (marks_of label) }
{
    let rec = layout::record_part(image, Kind::User, u);
    let levels = users::levels_in(rec);
    let compartments = users::compartments_in(rec);
    let groups = users::sets_in(edition_of(image), rec);
    let reached = reach(image, table, label.groups);
    View {
        profile: profile_of(image),
        level: label.level,
        compartments: label.compartments,
        reached_groups: reached,
        write_compartments: word::intersection(label.compartments, compartments.write),
        write_groups: write_groups_of(image, table, reached, groups.write),
        minimum: levels.minimum,
        maximum: levels.maximum,
        privileges: rec[31],
    }
}
