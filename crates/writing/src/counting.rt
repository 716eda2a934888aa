// What is lent to the writer, before any rule of a record: editions, profiles, whole records and counts.
ghost use Rattle.std.specs.Prelude.{◌/◌, ◌%◌, ◌≤◌, ◌<◌, ◌≡◌, eqb, length};
ghost use Rattle.records.specs.Fields.{class_of};
ghost use Rattle.records.specs.Rules.{record_in, run_records};
ghost use Rattle.writing.specs.Lent.{bytes_in, class_total, lent_counts, lent_layout_rule};

use crate::lent::LentRecords;
use header::counts::Counts;
use header::edition::{Edition, edition_named};
use header::layout::{Kind, size};
use header::profile::{Profile, profile_named};
use header::rules::{counts_within, known_edition, known_profile};

// Does the component record at place i name the class?
fn names_class(components: &[u8], i: usize, class: u8) -> bool
    requires { i < length components.now / 40 }
    ensures { result ≡ eqb (class_of (record_in (run_records 40 components.now) i)) class }
{
    components[40 * i] == class
}

// How many component records name the class.
fn class_total(components: &[u8], class: u8) -> usize
    ensures { result ≡ class_total (run_records 40 components.now) class }
{
    let count = components.len() / 40;
    let mut held = 0;
    for i in 0..count {
        if names_class(components, i, class) {
            held += 1;
        }
    }
    held
}

// The edition, the profile, and as many components of each class as name it.
pub(crate) fn lent_counts(edition: Edition, profile: Profile, components: &[u8]) -> Counts
    ensures { result ≡ lent_counts edition profile (run_records 40 components.now) }
{
    Counts {
        edition,
        profile,
        levels: class_total(components, 1),
        compartments: class_total(components, 2),
        groups: class_total(components, 3),
    }
}

// Is the length whole records of that size?
fn whole(records: &[u8], size: usize) -> bool
    requires { 1 ≤ size }
    ensures { result ≡ eqb (length records.now % size) 0 }
{
    records.len() % size == 0
}

// The edition and the profile are known, each length is whole records, and no count is outside its limits.
pub(crate) fn layout_fits(edition: u8, profile: u8, lent: LentRecords) -> bool
    ensures { result ≡ lent_layout_rule edition profile (bytes_in lent.entry) }
{
    let named = edition_named(edition);
    let label_size = size(named, Kind::Label);
    let user_size = size(named, Kind::User);
    let counts = lent_counts(named, profile_named(profile), lent.components);
    known_edition(edition)
        & known_profile(profile)
        & whole(lent.components, 40)
        & whole(lent.labels, label_size)
        & whole(lent.users, user_size)
        & counts_within(
            counts,
            lent.users.len() / user_size,
            lent.labels.len() / label_size,
        )
}
