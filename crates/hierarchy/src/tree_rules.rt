// The rule of the groups in the profile with a tree of groups, asked of sixteen users at once. One user after the other would cost a pass
// over the groups for each of the user's sets. Users whose sets lie within one another as they stand are passed over.
ghost use Rattle.std.specs.Prelude.{◌^◌, ◌<◌, ◌≡◌, true, length};
ghost use Rattle.sets.specs.Groups.{places_of};
ghost use Rattle.header.specs.declared.profile.Profile.TheVariants.{Tree};
ghost use Rattle.hierarchy.specs.Forest.{table_room, forest_by, OrderedBy};
ghost use Rattle.hierarchy.specs.Below.{of_sets};
ghost use Rattle.hierarchy.specs.Users.{Among, first_bad_user};
ghost use Rattle.hierarchy.specs.UserRows.{plain_sets, PlainUpto, Filled, Reads};

use crate::group_rules::first_bad_singly;
use crate::set_rows::{lowest_bad_user, put_user, sets_fit};
use crate::table::Table;
use crate::users::{Users, sets_or_none, words_or_none};
use header::edition::Edition;
use header::profile::Profile;
use records::users::GroupSets;
use sets::groups::Groups;

// Do the sets lie within one another as they stand, and the read groups, which have all of them, within `all`? Then they lie below one another too,
// whatever the parents are.
fn plain(all: Groups, sets: GroupSets) -> bool
    ensures { result ≡ of_sets (plain_sets (places_of all)) sets }
{
    sets.write.union(sets.default).within(sets.read)
        & sets.row.within(sets.default.intersection(sets.write))
        & sets.read.within(all)
}

// The first user from `from` on whose sets do not lie within one another as they stand. Most images have none. Only that the users before are good
// is claimed: from where on they are asked in rows is a matter of speed alone.
fn first_not_plain(users: Users, bytes: &[u8], from: usize, all: Groups) -> usize
    requires { Among users bytes.now }
    ensures { PlainUpto (places_of all) users bytes.now from result }
{
    for u in from..users.count {
        if !plain(all, sets_or_none(users, bytes, u)) {
            return u;
        }
    }
    from.max(users.count)
}

// Fills the rows with the sets of sixteen users from `from` on, as `sets_of` reads those of one. Says no where one of these names a group that is
// not there; the rule of user records leaves none of these where groups are asked. Nothing is claimed where it says no: then users are asked one
// after the other.
fn fill_by<F: Fn(usize) -> GroupSets>(
    sets_of: F,
    from: usize,
    all: Groups,
    rows: &mut [u64],
) -> bool
    requires callable { F.IsAlwaysCallable sets_of }
    requires room { (from < 2 ^ 60) × (length rows.old ≡ table_room) }
    ensures { (users : _) (bytes : _) → Reads (F.post sets_of) users bytes → result ≡ true → Filled (places_of all) users bytes from 16 rows.new }
{
    for i in 0..16 {
        let sets = sets_of(from + i);
        if !sets_fit(all, sets) {
            return false;
        }
        put_user(rows, i, sets);
    }
    true
}

// Fills the rows, by the loop of the edition. In edition 1 a set is one word: a loop of its own, in which the compiler carries four words for a
// user's sets, and not sixteen.
fn fill_rows(users: Users, bytes: &[u8], from: usize, all: Groups, rows: &mut [u64]) -> bool
    requires { Among users bytes.now × ((from < 2 ^ 60) × (length rows.old ≡ table_room)) }
    ensures { result ≡ true → Filled (places_of all) users bytes.now from 16 rows.new }
{
    match users.edition {
        Edition::One => fill_by(|u| words_or_none(users, bytes, u), from, all, rows),
        Edition::Two => fill_by(|u| sets_or_none(users, bytes, u), from, all, rows),
    }
}

// The lowest user whose groups break the rule of the tree; the number of users where there is none. The rows are room to work in.
pub(crate) fn first_bad_in_tree(
    count: usize,
    table: &Table,
    users: Users,
    bytes: &[u8],
    rows: &mut [u64],
) -> usize
    requires { OrderedBy count table.now × (Among users bytes.now × (length rows.old ≡ table_room)) }
    ensures { result ≡ first_bad_user Tree (forest_by count table.now) users bytes.now }
{
    let all = Groups::all_below(count);
    let mut from = 0;
    // No range counts `from`: the next part begins behind the users that were asked, wherever these stand.
    while from < users.count {
        let asked = first_not_plain(users, bytes, from, all);
        if users.count <= asked {
            return users.count;
        }
        if !fill_rows(users, bytes, asked, all, rows) {
            return first_bad_singly(Profile::Tree, count, table, users, bytes);
        }
        let i = lowest_bad_user(count, table, rows);
        if i < 16 {
            return asked + i;
        }
        from = asked + 16;
    }
    users.count
}
