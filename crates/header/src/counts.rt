// What the rules of records ask of the header.
ghost use Rattle.std.specs.Prelude.{◌≤◌, ◌≡◌, length};
ghost use Rattle.header.specs.Layout.{counts_of, class_at};

use crate::edition::{Edition, edition_of};
use crate::layout;
use crate::profile::{Profile, profile_of};

// The edition, the profile, and how many components there are of each class.
#[derive(Clone, Copy)]
pub struct Counts {
    pub edition: Edition,
    pub profile: Profile,
    pub levels: usize,
    pub compartments: usize,
    pub groups: usize,
}

pub fn counts_of(image: &[u8]) -> Counts
    requires { 512 ≤ length image.now }
    ensures { result ≡ counts_of image.now }
{
    Counts {
        edition: edition_of(image),
        profile: profile_of(image),
        levels: layout::levels(image),
        compartments: layout::compartments(image),
        groups: layout::groups(image),
    }
}

// The class that the counts put at place i among all components: 1 level, 2 compartment, 3 group.
pub fn class_at(counts: Counts, i: usize) -> u8
    ensures { result ≡ class_at counts i }
{
    if i < counts.levels {
        return 1;
    }
    if i - counts.levels < counts.compartments {
        return 2;
    }
    3
}
