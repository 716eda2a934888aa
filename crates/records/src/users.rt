// The rules of a user record, but for those of below.
ghost use Rattle.std.specs.Prelude.{◌≡◌, ◌+◌, ◌<◌, ◌≤◌, ◌&&◌, length, drop};
ghost use Rattle.fields.specs.Bytes.{part, all_zero};
ghost use Rattle.header.specs.declared.layout.Kind.TheVariants.{User};
ghost use Rattle.header.specs.Layout.{users, record_size, user_record};
ghost use Rattle.records.specs.Fields as fields;
ghost use Rattle.records.specs.Fields.{user_name, user_end};
ghost use Rattle.records.specs.Users.{levels_of, compartments_of, GroupsAre, four_within};
ghost use Rattle.records.specs.Rules.{user_levels_rule, user_compartments_rule, user_groups_rule, bans_compaccess, privileges_rule, user_shape, after_rule};
ghost use Rattle.header.specs.Limits.{Counted};
ghost use Rattle.records.specs.Existing.{Exist};

use crate::existing::Existing;
use crate::group_sets::group_set;
use fields::name_field::name_ok;
use fields::names;
use fields::numbers::{number4, number8};
use header::edition::{Edition, by_edition};
use header::layout;
use header::layout::Kind;
use header::profile::Profile;
use sets::groups::Groups;
use sets::word;

pub fn name(image: &[u8], u: usize) -> &[u8]
    requires { Counted image.now × (u < users image.now) }
    ensures { result.now ≡ user_name (user_record image.now u) }
{
    let rec = layout::record_part(image, Kind::User, u);
    names::name_in(&rec[0..31])
}

pub fn privileges(image: &[u8], u: usize) -> u8
    requires { Counted image.now × (u < users image.now) }
    ensures { result ≡ fields.privileges (user_record image.now u) }
{
    let rec = layout::record_part(image, Kind::User, u);
    rec[31]
}

// A user's four levels.
#[derive(Clone, Copy)]
pub struct Levels {
    pub maximum: u8,
    pub minimum: u8,
    pub default: u8,
    pub row: u8,
}

// Those in a user's record.
pub fn levels_in(rec: &[u8]) -> Levels
    requires { 128 ≤ length rec.now }
    ensures { result ≡ levels_of rec.now }
{
    Levels {
        maximum: rec[32],
        minimum: rec[33],
        default: rec[34],
        row: rec[35],
    }
}

// A user's four sets of compartments. This and GroupSets are no `Sets<T>` under two names: a type alias has no name in specs/, where definitions of
// hierarchy (SetsAre, NoSets) are about a GroupSets.
#[derive(Clone, Copy)]
pub struct CompartmentSets {
    pub read: u64,
    pub write: u64,
    pub default: u64,
    pub row: u64,
}

// Those in a user's record.
pub fn compartments_in(rec: &[u8]) -> CompartmentSets
    requires { 128 ≤ length rec.now }
    ensures { result ≡ compartments_of rec.now }
{
    CompartmentSets {
        read: number8(rec, 40),
        write: number8(rec, 48),
        default: number8(rec, 56),
        row: number8(rec, 64),
    }
}

// A user's four sets of groups.
#[derive(Clone, Copy)]
pub struct GroupSets {
    pub read: Groups,
    pub write: Groups,
    pub default: Groups,
    pub row: Groups,
}

// Those in a user's record.
pub fn sets_in(edition: Edition, rec: &[u8]) -> GroupSets
    requires { length rec.now ≡ record_size edition User }
    ensures { GroupsAre edition rec.now result }
{
    GroupSets {
        read: group_set(edition, rec, 72),
        write: group_set(edition, rec, by_edition(edition, 80, 104)),
        default: group_set(edition, rec, by_edition(edition, 88, 136)),
        row: group_set(edition, rec, by_edition(edition, 96, 168)),
    }
}

fn levels_ok(rec: &[u8], count: usize) -> bool
    requires { 128 ≤ length rec.now }
    ensures { result ≡ user_levels_rule count rec.now }
{
    (rec[33] <= rec[35])
        & (rec[35] <= rec[34])
        & (rec[34] <= rec[32])
        & ((rec[32] as usize) < count)
}

// Write and default compartments lie in read exactly if their union does, and row ones in default and in write exactly if in both.
fn compartments_ok(existing: Existing, rec: &[u8]) -> bool
    requires { Exist existing × (128 ≤ length rec.now) }
    ensures { result ≡ user_compartments_rule existing.counts.compartments rec.now }
{
    let read = number8(rec, 40);
    let write = number8(rec, 48);
    let default = number8(rec, 56);
    let row = number8(rec, 64);
    if !word::within(read, existing.compartments) {
        return false;
    }
    if !word::within(word::union(write, default), read) {
        return false;
    }
    word::within(row, word::intersection(default, write))
}

// Four words, `size` bytes apart, of which the first begins at k, name only places of `all`: as their union does.
fn words_exist(rec: &[u8], k: usize, size: usize, all: u64) -> bool
    requires { (k + size + size + size + 8 ≤ length rec.now) × (size ≤ 32) }
    ensures { result ≡ four_within rec.now k size all }
{
    let second = k + size;
    let third = second + size;
    let fourth = third + size;
    let one = word::union(number8(rec, k), number8(rec, second));
    let two = word::union(number8(rec, third), number8(rec, fourth));
    word::within(word::union(one, two), all)
}

fn groups_ok(existing: Existing, rec: &[u8]) -> bool
    requires { Exist existing × ((length rec.now ≡ record_size existing.counts.edition User) × (128 ≤ length rec.now)) }
    ensures { result ≡ user_groups_rule existing.counts.edition existing.counts.groups rec.now }
{
    let all = existing.groups;
    match existing.counts.edition {
        Edition::One => words_exist(rec, 72, 8, all.word(0)),
        Edition::Two => {
            if !words_exist(rec, 72, 32, all.word(0)) {
                return false;
            }
            if !words_exist(rec, 80, 32, all.word(1)) {
                return false;
            }
            if !words_exist(rec, 88, 32, all.word(2)) {
                return false;
            }
            words_exist(rec, 96, 32, all.word(3))
        }
    }
}

// Edition 2 doesn't have COMPACCESS, and the release profile doesn't.
fn bans_compaccess(edition: Edition, profile: Profile) -> bool
    ensures { result ≡ bans_compaccess edition profile }
{
    (edition == Edition::Two) | (profile == Profile::Release)
}

// Bit 128 is zero, and COMPACCESS is absent where it is banned.
fn privileges_ok(edition: Edition, profile: Profile, held: u8) -> bool
    ensures { result ≡ privileges_rule edition profile held }
{
    (held < 128) & !(bans_compaccess(edition, profile) & word::has(held as u64, 2))
}

// Unused bytes are zero: four before the sets, and in edition 1 three words after them.
fn unused_ok(edition: Edition, rec: &[u8]) -> bool
    requires { (length rec.now ≡ record_size edition User) × (128 ≤ length rec.now) }
    ensures { result ≡ (all_zero (part rec.now 36 4) && all_zero (drop (user_end edition) rec.now)) }
{
    match edition {
        Edition::One => {
            let one = word::union(number8(rec, 104), number8(rec, 112));
            let rest = word::union(one, number8(rec, 120));
            (number4(rec, 36) == 0) & word::is_empty(rest)
        }
        Edition::Two => number4(rec, 36) == 0,
    }
}

// What a record must be whatever the others are.
fn shape_ok(existing: Existing, rec: &[u8]) -> bool
    requires { Exist existing × ((length rec.now ≡ record_size existing.counts.edition User) × (128 ≤ length rec.now)) }
    ensures { result ≡ user_shape existing.counts rec.now }
{
    let counts = existing.counts;
    if !name_ok(rec[0], &rec[1..34]) {
        return false;
    }
    if !privileges_ok(counts.edition, counts.profile, rec[31]) {
        return false;
    }
    if !unused_ok(counts.edition, rec) {
        return false;
    }
    if !levels_ok(rec, counts.levels) {
        return false;
    }
    if !compartments_ok(existing, rec) {
        return false;
    }
    groups_ok(existing, rec)
}

// The user at place u, and the record right before it.
pub fn user_ok(existing: Existing, u: usize, previous: &[u8], rec: &[u8]) -> bool
    requires exist { Exist existing × ((length rec.now ≡ record_size existing.counts.edition User) × (128 ≤ length rec.now)) }
    requires in_bounds { 128 ≤ length previous.now }
    ensures { result ≡ after_rule User existing.counts u previous.now rec.now }
{
    let before = names::name_in(&previous[0..31]);
    let name = names::name_in(&rec[0..31]);
    if !shape_ok(existing, rec) {
        return false;
    }
    (u == 0) | names::name_before(before, name)
}
