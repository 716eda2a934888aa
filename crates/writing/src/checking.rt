// Whether what is lent to the writer keeps every rule, and the fault that is told.
ghost use Rattle.std.specs.Prelude.{◌/◌, ◌%◌, ◌≤◌, ◌<◌, ◌≡◌, length};
ghost use Rattle.header.specs.declared.layout.Kind.TheVariants.{Component, User};
ghost use Rattle.header.specs.Layout.{record_size};
ghost use Rattle.records.specs.Existing.{Exist};
ghost use Rattle.records.specs.Rules.{run_records};
ghost use Rattle.writing.specs.Lent.{LentParts, bytes_in, lent_records, lent_counts, kind_check, groups_check, records_check, lent_check};

use crate::answers::LentFault;
use crate::counting::{layout_fits, lent_counts};
use crate::groups::{fill, first_bad_user};
use crate::lent::{LentRecords, first_bad};
use header::edition::edition_named;
use header::layout::{Kind, size};
use header::profile::profile_named;
use hierarchy::order::put_order;
use hierarchy::table;
use records::existing::{Existing, existing_by};

// Rings of parents, then users' sets of groups.
fn groups_check(existing: Existing, components: &[u8], users: &[u8]) -> Result<(), LentFault>
    requires { Exist existing × (existing.counts ≡ lent_counts existing.counts.edition existing.counts.profile (run_records 40 components.now)) }
    ensures { result ≡ groups_check existing.counts (run_records 40 components.now) (run_records (record_size existing.counts.edition User) users.now) }
{
    let counts = existing.counts;
    let edition = counts.edition;
    let mut parents = table::EMPTY;
    fill(counts, components, &mut parents);
    let g = put_order(counts.groups, &mut parents);
    if g < counts.groups {
        return Err(LentFault::Ring(g));
    }
    let u = first_bad_user(existing, components, &parents, users);
    if u < users.len() / size(edition, Kind::User) {
        return Err(LentFault::Record(Kind::User, u));
    }
    Ok(())
}

// The records of a kind: the lowest that breaks a rule is told.
fn kind_check(existing: Existing, kind: Kind, records: &[u8]) -> Result<(), LentFault>
    requires exist { Exist existing × (existing.counts.levels ≤ 256) }
    requires kind_len { length records.now % record_size existing.counts.edition kind ≡ 0 }
    ensures { result ≡ kind_check existing.counts kind (run_records (record_size existing.counts.edition kind) records.now) }
{
    let counts = existing.counts;
    let edition = counts.edition;
    let i = first_bad(existing, kind, records);
    if i < records.len() / size(edition, kind) {
        return Err(LentFault::Record(kind, i));
    }
    Ok(())
}

// The records of each kind, then the groups.
fn records_check(existing: Existing, lent: LentRecords) -> Result<(), LentFault>
    requires exist { Exist existing × (existing.counts ≡ lent_counts existing.counts.edition existing.counts.profile (run_records 40 lent.components.now)) }
    requires levels_bound { (existing.counts.levels ≤ 256) × LentParts existing.counts.edition (bytes_in lent) }
    ensures { result ≡ records_check existing.counts (lent_records existing.counts.edition (bytes_in lent.entry)) }
{
    kind_check(existing, Kind::Component, lent.components)?;
    kind_check(existing, Kind::Label, lent.labels)?;
    kind_check(existing, Kind::User, lent.users)?;
    groups_check(existing, lent.components, lent.users)
}

// All rules: 31, then 32 to 35.
pub(crate) fn lent_check(edition: u8, profile: u8, lent: LentRecords) -> Result<(), LentFault>
    ensures { result ≡ lent_check edition profile (bytes_in lent.entry) }
{
    if !layout_fits(edition, profile, lent) {
        return Err(LentFault::Layout);
    }
    let counts = lent_counts(
        edition_named(edition),
        profile_named(profile),
        lent.components,
    );
    records_check(existing_by(counts), lent)
}
