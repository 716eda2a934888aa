// The groups among component records that are lent to the writer: their table of parents, and the rule of users' sets.
ghost use Rattle.std.specs.Prelude.{◌+◌, ◌/◌, ◌≤◌, ◌<◌, ◌≡◌, length};
ghost use Rattle.header.specs.declared.layout.Kind.TheVariants.{User};
ghost use Rattle.header.specs.Layout.{record_size};
ghost use Rattle.records.specs.Fields.{parent_of};
ghost use Rattle.records.specs.Rules.{record_in, run_records};
ghost use Rattle.records.specs.Existing.{Exist};
ghost use Rattle.hierarchy.specs.Forest.{table_room, table_length, ParentsIn, TabledIn};
ghost use Rattle.hierarchy.specs.Below.{forest_in, first_bad_sets};

use header::counts::Counts;
use header::edition::Edition;
use hierarchy::group_rules::first_bad_sets;
use hierarchy::set_rows;
use hierarchy::table::Table;
use hierarchy::users::in_run;
use records::components::parent_in;
use records::existing::Existing;

// The parent's place that the component record at place i has.
fn parent_at(edition: Edition, components: &[u8], i: usize) -> usize
    requires { i < length components.now / 40 }
    ensures { (result ≡ parent_of edition (record_in (run_records 40 components.now) i)) × (result < 65536) }
{
    let at = 40 * i;
    parent_in(edition, &components[at..at + 40])
}

// Puts the parent's place of every group into the places.
fn fill_places(counts: Counts, components: &[u8], places: &mut [u8])
    requires { (counts.levels + counts.compartments + counts.groups ≤ length components.now / 40) × ((counts.groups ≤ table_room) × (length places.old ≡ table_length)) }
    ensures { ParentsIn (forest_in counts (run_records 40 components.now)) places.new }
{
    let edition = counts.edition;
    let first = counts.levels + counts.compartments;
    for g in 0..counts.groups {
        let parent = parent_at(edition, components, first + g);
        places[2 * g] = (parent % 256) as u8;
        places[2 * g + 1] = (parent / 256) as u8;
    }
}

// Puts the parent's place of every group into the table.
pub(crate) fn fill(counts: Counts, components: &[u8], table: &mut Table)
    requires { (counts.levels + counts.compartments + counts.groups ≤ length components.now / 40) × (counts.groups ≤ table_room) }
    ensures { ParentsIn (forest_in counts (run_records 40 components.now)) table.new }
{
    fill_places(counts, components, table)
}

// The lowest user whose sets of groups break their rule; the number of users where there is none. The components, by which the table was filled, are
// here for the contract alone.
pub(crate) fn first_bad_user(
    existing: Existing,
    components: &[u8],
    table: &Table,
    users: &[u8],
) -> usize
    requires exist { Exist existing }
    requires tabled_in { TabledIn (forest_in existing.counts (run_records 40 components.now)) table.now }
    ensures { result ≡ first_bad_sets existing.counts (run_records 40 components.now) (run_records (record_size existing.counts.edition User) users.now) }
{
    let counts = existing.counts;
    let edition = counts.edition;
    let profile = counts.profile;
    let mut rows = set_rows::EMPTY;
    first_bad_sets(
        profile,
        counts.groups,
        table,
        in_run(edition, users),
        users,
        &mut rows,
    )
}
