// What groups reach, and the rules of a user's sets of groups among each other, by the profile: by a table of parents,
// and of an image.
ghost use Rattle.std.specs.Prelude.{◌≡◌, length};
ghost use Rattle.sets.specs.Groups.{places_of};
ghost use Rattle.sets.specs.Sets.{within, all_below};
ghost use Rattle.header.specs.Layout.{groups};
ghost use Rattle.header.specs.Limits.{Counted};
ghost use Rattle.hierarchy.specs.Forest.{table_room, forest_by, OrderedBy};
ghost use Rattle.hierarchy.specs.Below as groupwise;
ghost use Rattle.hierarchy.specs.Below.{below_sets, release_sets, sets_rule, of_sets, first_bad_below, Tabled};
ghost use Rattle.hierarchy.specs.Users.{Among, first_bad_user};

use crate::table;
use crate::table::Table;
use crate::tree_rules::first_bad_in_tree;
use crate::users::{Users, in_image, sets_or_none};
use header::layout;
use header::profile::{Profile, profile_of};
use records::users::GroupSets;
use sets::groups::Groups;

// Do the write and default groups lie below the read ones, and the row groups below the default and the write ones? `all` are all groups.
fn below_ok(count: usize, table: &Table, all: Groups, sets: GroupSets) -> bool
    requires { OrderedBy count table.now × (places_of all ≡ all_below count) }
    ensures { result ≡ of_sets (below_sets (forest_by count table.now)) sets }
{
    if !table::lies_below(count, table, all, sets.write.union(sets.default), sets.read) {
        return false;
    }
    // What lies below the default groups then lies below the write groups too.
    if sets.default.within(sets.write) {
        return table::lies_below(count, table, all, sets.row, sets.default);
    }
    if !table::lies_below(count, table, all, sets.row, sets.default) {
        return false;
    }
    table::lies_below(count, table, all, sets.row, sets.write)
}

// In the release profile default groups contain the read groups and row groups the default groups, and write groups are the read groups.
fn release_ok(sets: GroupSets) -> bool
    ensures { result ≡ of_sets release_sets sets }
{
    sets.read.within(sets.default) & sets.default.within(sets.row) & sets.write.same(sets.read)
}

// A user's sets of groups among each other, by the profile. `all` are all groups.
fn sets_ok(profile: Profile, count: usize, table: &Table, all: Groups, sets: GroupSets) -> bool
    requires { OrderedBy count table.now × (places_of all ≡ all_below count) }
    ensures { result ≡ of_sets (sets_rule profile (forest_by count table.now)) sets }
{
    match profile {
        Profile::Tree => below_ok(count, table, all, sets),
        Profile::Release => release_ok(sets),
    }
}

// What the groups reach: all that lie below them; in the release profile themselves.
pub fn reach(image: &[u8], table: &Table, s: Groups) -> Groups
    requires { Counted image.now × Tabled image.now table.now }
    ensures { places_of result ≡ groupwise.reach image.now (places_of s) }
{
    match profile_of(image) {
        Profile::Tree => table::below(layout::groups(image), table, s),
        Profile::Release => s,
    }
}

// Does every group of `set` lie below `other`? `all` are all groups.
pub fn lies_below(image: &[u8], table: &Table, all: Groups, set: Groups, other: Groups) -> bool
    requires { Counted image.now × (Tabled image.now table.now × (places_of all ≡ all_below (groups image.now))) }
    ensures { result ≡ within (places_of set) (groupwise.below image.now (places_of other)) }
{
    table::lies_below(layout::groups(image), table, all, set, other)
}

// The lowest user whose groups break their rule, one after the other; the number of users where there is none.
pub(crate) fn first_bad_singly(
    profile: Profile,
    count: usize,
    table: &Table,
    users: Users,
    bytes: &[u8],
) -> usize
    requires { OrderedBy count table.now × Among users bytes.now }
    ensures { result ≡ first_bad_user profile (forest_by count table.now) users bytes.now }
{
    let all = Groups::all_below(count);
    for u in 0..users.count {
        if !sets_ok(profile, count, table, all, sets_or_none(users, bytes, u)) {
            return u;
        }
    }
    users.count
}

// The lowest user whose groups break their rule; the number of users where there is none. The rows are room to work in.
pub fn first_bad_sets(
    profile: Profile,
    count: usize,
    table: &Table,
    users: Users,
    bytes: &[u8],
    rows: &mut [u64],
) -> usize
    requires { OrderedBy count table.now × (Among users bytes.now × (length rows.old ≡ table_room)) }
    ensures { result ≡ first_bad_user profile (forest_by count table.now) users bytes.now }
{
    match profile {
        Profile::Tree => first_bad_in_tree(count, table, users, bytes, rows),
        Profile::Release => first_bad_singly(profile, count, table, users, bytes),
    }
}

// The same of an image.
pub fn first_bad_below(image: &[u8], table: &Table, rows: &mut [u64]) -> usize
    requires { Counted image.now × (Tabled image.now table.now × (length rows.old ≡ table_room)) }
    ensures { result ≡ first_bad_below image.now }
{
    let profile = profile_of(image);
    let count = layout::groups(image);
    first_bad_sets(profile, count, table, in_image(image), image, rows)
}
