// The rules for a new session label and a new row label.
ghost use Rattle.std.specs.Prelude.{◌<◌, ◌≤◌, ◌≡◌, length};
ghost use Rattle.sets.specs.Sets.{within};
ghost use Rattle.sets.specs.Groups.{places_of};
ghost use Rattle.header.specs.declared.layout.Kind.TheVariants.{User};
ghost use Rattle.header.specs.Layout.{edition_of, record_size, users};
ghost use Rattle.records.specs.Fields.{minimum_level, maximum_level, read_compartments};
ghost use Rattle.header.specs.Limits.{Counted};
ghost use Rattle.hierarchy.specs.Below.{Tabled};
ghost use Rattle.labels.specs.Label.{marks_of};
ghost use Rattle.access.specs.Rights.{rights_of, rights_at, between};
ghost use Rattle.access.specs.NewLabels.{session_groups_rule, row_groups_rule, row_inside, session_label_answer, row_label_answer};

use crate::rights::{View, is_between};
use header::edition::edition_of;
use header::layout;
use header::layout::Kind;
use header::profile::{Profile, profile_of};
use hierarchy::group_rules;
use hierarchy::table::Table;
use labels::label::Label;
use records::users;
use refusals::Refusal;
use sets::groups::Groups;
use sets::word;

// Do the row label's groups lie inside the session's write groups? In the release profile: do they exist and contain the session's groups?
fn row_groups_ok(view: View, groups: Groups) -> bool
    ensures { result ≡ row_groups_rule (rights_of view) (places_of groups) }
{
    match view.profile {
        Profile::Tree => groups.within(view.write_groups),
        Profile::Release => {
            groups.within(view.write_groups) & view.reached_groups.within(groups)
        }
    }
}

// Is the row label no higher than the session's level, with compartments inside its write compartments and groups by the rule above?
fn row_inside(view: View, row: Label) -> bool
    ensures { result ≡ row_inside (rights_of view) (marks_of row) }
{
    (row.level <= view.level)
        & word::within(row.compartments, view.write_compartments)
        & row_groups_ok(view, row.groups)
}

// Is the level between the user's minimum and maximum?
fn level_ok(rec: &[u8], level: u8) -> bool
    requires { 128 ≤ length rec.now }
    ensures { result ≡ between (minimum_level rec.now) (maximum_level rec.now) level }
{
    let levels = users::levels_in(rec);
    is_between(levels.minimum, levels.maximum, level)
}

// May the user read all these compartments?
fn compartments_ok(rec: &[u8], set: u64) -> bool
    requires { 128 ≤ length rec.now }
    ensures { result ≡ within set (read_compartments rec.now) }
{
    word::within(set, users::compartments_in(rec).read)
}

// Do all these groups lie below the user's read groups? In the release profile: do they exist and contain the read groups?
fn groups_ok(image: &[u8], table: &Table, rec: &[u8], set: Groups) -> bool
    requires { Counted image.now × (Tabled image.now table.now × (length rec.now ≡ record_size (edition_of image.now) User)) }
    ensures { result ≡ session_groups_rule image.now rec.now (places_of set) }
{
    let groups = users::sets_in(edition_of(image), rec);
    let all = Groups::all_below(layout::groups(image));
    match profile_of(image) {
        Profile::Tree => group_rules::lies_below(image, table, all, set, groups.read),
        Profile::Release => set.within(all) & groups.read.within(set),
    }
}

// May the user have the new session label beside that row label? The view is what the new label gives. Refusals: 8, 9, 10, 11.
pub fn session_label_answer(
    image: &[u8],
    table: &Table,
    u: usize,
    new: Label,
    view: View,
    row: Label,
) -> Result<(), Refusal>
    requires { (Counted image.now × (Tabled image.now table.now × (u < users image.now))) × (rights_of view ≡ rights_at image.now u (marks_of new)) }
    ensures { result ≡ session_label_answer image.now u (marks_of new) (marks_of row) }
{
    let rec = layout::record_part(image, Kind::User, u);
    if !level_ok(rec, new.level) {
        return Err(Refusal::LevelNotAllowed);
    }
    if !compartments_ok(rec, new.compartments) {
        return Err(Refusal::CompartmentsNotAllowed);
    }
    if !groups_ok(image, table, rec, new.groups) {
        return Err(Refusal::GroupsNotAllowed);
    }
    if !row_inside(view, row) {
        return Err(Refusal::RowLabelOutside);
    }
    Ok(())
}

// May the session have the new row label? Refusals: 8, 9, 10.
pub fn row_label_answer(view: View, new: Label) -> Result<(), Refusal>
    ensures { result ≡ row_label_answer (rights_of view) (marks_of new) }
{
    if !is_between(view.minimum, view.level, new.level) {
        return Err(Refusal::LevelNotAllowed);
    }
    if !word::within(new.compartments, view.write_compartments) {
        return Err(Refusal::CompartmentsNotAllowed);
    }
    if !row_groups_ok(view, new.groups) {
        return Err(Refusal::GroupsNotAllowed);
    }
    Ok(())
}
