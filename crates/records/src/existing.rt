// What the rules of records ask of the header, worked out once.
ghost use Rattle.std.specs.Prelude.{◌≡◌, ◌≤◌};
ghost use Rattle.sets.specs.Groups.{width};
ghost use Rattle.header.specs.Layout.{counts_of};
ghost use Rattle.header.specs.Limits.{Counted};
ghost use Rattle.records.specs.Existing.{Exist};

use header::counts::{Counts, counts_of};
use sets::groups::Groups;
use sets::word;

#[derive(Clone, Copy)]
pub struct Existing {
    pub counts: Counts,
    // The compartments and the groups that exist.
    pub compartments: u64,
    pub groups: Groups,
}

pub fn existing_by(counts: Counts) -> Existing
    requires { (counts.compartments ≤ 64) × (counts.groups ≤ width) }
    ensures { Exist result × (result.counts ≡ counts) }
{
    Existing {
        counts,
        compartments: word::all_below(counts.compartments),
        groups: Groups::all_below(counts.groups),
    }
}

pub fn existing_in(image: &[u8]) -> Existing
    requires { Counted image.now }
    ensures { Exist result × (result.counts ≡ counts_of image.now) }
{
    existing_by(counts_of(image))
}
