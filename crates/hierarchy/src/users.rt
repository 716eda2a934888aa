// Where the records of users stand among bytes, and the sets of groups that they hold.
ghost use Rattle.std.specs.Prelude.{◌<◌, ◌≤◌, ◌≡◌, length, MatchOption};
ghost use Rattle.header.specs.declared.edition.Edition.TheVariants.{One};
ghost use Rattle.header.specs.declared.layout.Kind.TheVariants.{User};
ghost use Rattle.header.specs.Layout.{edition_of, record_size, records_of};
ghost use Rattle.header.specs.Limits.{Counted};
ghost use Rattle.records.specs.Rules.{run_records};
ghost use Rattle.records.specs.Users.{GroupsAre};
ghost use Rattle.hierarchy.specs.Users.{UserRecord, Among, Held};
ghost use Rattle.hierarchy.specs.UserRows.{NoSets, SetsAre};

use fields::numbers::number8;
use header::edition::{Edition, edition_of};
use header::layout;
use header::layout::Kind;
use records::users::{GroupSets, sets_in};
use sets::groups::Groups;

// The one at place u begins at `base + size * u + gap * (u / each)`: a block of an image holds `each` of them, and between two blocks' records there
// is a gap.
#[derive(Clone, Copy)]
pub struct Users {
    pub edition: Edition,
    pub base: usize,
    pub size: usize,
    pub each: usize,
    pub gap: usize,
    pub count: usize,
}

// Those of an image.
pub fn in_image(image: &[u8]) -> Users
    requires { Counted image.now }
    ensures { Held (edition_of image.now) (records_of image.now User) image.now result }
{
    let shape = layout::shape_of(image, Kind::User);
    let room = shape.size * shape.capacity;
    Users {
        edition: edition_of(image),
        base: 512 * shape.first + 4,
        size: shape.size,
        each: shape.capacity,
        gap: 512 - room,
        count: shape.count,
    }
}

// Those of a run, one right after the other.
pub fn in_run(edition: Edition, run: &[u8]) -> Users
    ensures { Held edition (run_records (record_size edition User) run.now) run.now result }
{
    let size = layout::size(edition, Kind::User);
    Users {
        edition,
        base: 0,
        size,
        each: 1,
        gap: 0,
        count: run.len() / size,
    }
}

// The record of the user at place u.
#[tactic(auto, using(crate::proofs::UsersHeld::user_inside))]
fn user_record<'a>(users: Users, bytes: &'a [u8], u: usize) -> Option<&'a [u8]>
    requires { Among users bytes.now }
    ensures { MatchOption result (users.count ≤ u) (λ rec. UserRecord users bytes.now u rec.now) }
{
    if u >= users.count {
        return None;
    }
    let at = users.base + users.size * u + users.gap * (u / users.each);
    Some(&bytes[at..at + users.size])
}

// The sets where there is no user.
fn no_sets() -> GroupSets
    ensures { NoSets result }
{
    let none = Groups::none();
    GroupSets {
        read: none,
        write: none,
        default: none,
        row: none,
    }
}

// The sets of the user at place u; empty ones where there is none.
pub(crate) fn sets_or_none(users: Users, bytes: &[u8], u: usize) -> GroupSets
    requires { Among users bytes.now }
    ensures { SetsAre users bytes.now u result }
{
    user_record(users, bytes, u).map_or_else(no_sets, |rec| sets_in(users.edition, rec))
}

// The four sets of groups in a user's record of edition 1, where a set is one word.
fn words_in(rec: &[u8]) -> GroupSets
    requires { 128 ≤ length rec.now }
    ensures { GroupsAre One rec.now result }
{
    GroupSets {
        read: Groups::of_word(number8(rec, 72)),
        write: Groups::of_word(number8(rec, 80)),
        default: Groups::of_word(number8(rec, 88)),
        row: Groups::of_word(number8(rec, 96)),
    }
}

// The same as `sets_or_none`, of edition 1. The edition is not asked, so that the compiler carries four words for the sets, and not sixteen.
pub(crate) fn words_or_none(users: Users, bytes: &[u8], u: usize) -> GroupSets
    requires { Among users bytes.now × (users.edition ≡ One) }
    ensures { SetsAre users bytes.now u result }
{
    user_record(users, bytes, u).map_or_else(no_sets, words_in)
}
