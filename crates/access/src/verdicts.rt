// Verdicts: the question on a label, and the look-up of a tag before it.
ghost use Rattle.std.specs.Prelude.{◌<◌, ◌≤◌, ◌≡◌, length};
ghost use Rattle.header.specs.Layout.{edition_of, labels};
ghost use Rattle.header.specs.Limits.{Counted};
ghost use Rattle.image.specs.Check.{IsAccepted};
ghost use Rattle.labels.specs.Label.{marks_of, label_at};
ghost use Rattle.access.specs.Rights.{rights_of};
ghost use Rattle.access.specs.Verdicts.{reads_all, writes_all, holds_compaccess, read_level_rule, read_groups_rule, read_tests, reads_label};
ghost use Rattle.access.specs.Verdicts.{tree_sets_rule, release_sets_rule, write_sets_rule, write_tests, writes_label};
ghost use Rattle.access.specs.Verdicts.{unknown_rule, unknown_read, reads_at, may_read, may_write};

use crate::rights::{View, is_between};
use fields::numbers::number8;
use header::edition::{Edition, edition_of};
use header::layout;
use header::layout::Kind;
use header::profile::Profile;
use image::given::label_of_tag;
use labels::group_test;
use labels::label::Label;
use records::group_sets::group_set;
use sets::word;

// The places of the privileges in their set.
const READ: usize = 0;

const FULL: usize = 1;

const COMPACCESS: usize = 2;

// Is READ or FULL held?
pub fn reads_all(view: View) -> bool
    ensures { result ≡ reads_all (rights_of view) }
{
    let privileges = view.privileges as u64;
    word::has(privileges, READ) | word::has(privileges, FULL)
}

// Is FULL held?
fn writes_all(view: View) -> bool
    ensures { result ≡ writes_all (rights_of view) }
{
    word::has(view.privileges as u64, FULL)
}

pub(crate) fn holds_compaccess(view: View) -> bool
    ensures { result ≡ holds_compaccess (rights_of view) }
{
    word::has(view.privileges as u64, COMPACCESS)
}

// Row level ≤ session level: the minimum never stops reading.
fn read_level(view: View, row: Label) -> bool
    ensures { result ≡ read_level_rule (rights_of view) (marks_of row) }
{
    row.level <= view.level
}

// The row has no groups, or one of them lies below the session's; in the release profile it has all the session's groups.
fn read_groups(view: View, row: Label) -> bool
    ensures { result ≡ read_groups_rule (rights_of view) (marks_of row) }
{
    group_test::passes(view.profile, view.reached_groups, row.groups)
}

// Is a row of that label readable by level, groups and compartments, or by COMPACCESS? Both ask for level and compartments.
fn read_tests(view: View, row: Label) -> bool
    ensures { result ≡ read_tests (rights_of view) (marks_of row) }
{
    if !read_level(view, row) {
        return false;
    }
    if !word::within(row.compartments, view.compartments) {
        return false;
    }
    if holds_compaccess(view) & !word::is_empty(row.compartments) {
        return true;
    }
    read_groups(view, row)
}

// Is a row of that label readable?
pub fn reads_label(view: View, row: Label) -> bool
    ensures { result ≡ reads_label (rights_of view) (marks_of row) }
{
    if reads_all(view) {
        return true;
    }
    read_tests(view, row)
}

// A row with groups asks for the session's compartments only.
fn tree_sets(view: View, row: Label) -> bool
    ensures { result ≡ tree_sets_rule (rights_of view) (marks_of row) }
{
    if row.groups.is_empty() {
        return word::within(row.compartments, view.write_compartments);
    }
    row.groups.meets(view.write_groups) & word::within(row.compartments, view.compartments)
}

// The read test on groups and compartments, and write access to all the row's compartments.
fn release_sets(view: View, row: Label) -> bool
    ensures { result ≡ release_sets_rule (rights_of view) (marks_of row) }
{
    read_groups(view, row)
        & word::within(row.compartments, view.compartments)
        & word::within(row.compartments, view.write_compartments)
}

// Do the sets let the row be written?
fn write_sets(view: View, row: Label) -> bool
    ensures { result ≡ write_sets_rule (rights_of view) (marks_of row) }
{
    match view.profile {
        Profile::Tree => tree_sets(view, row),
        Profile::Release => release_sets(view, row),
    }
}

// Is a row of that label writable by level and sets, or by COMPACCESS?
fn write_tests(view: View, row: Label) -> bool
    ensures { result ≡ write_tests (rights_of view) (marks_of row) }
{
    let compaccess = holds_compaccess(view);
    let sets = write_sets(view, row);
    let written = word::within(row.compartments, view.write_compartments);
    let level = is_between(view.minimum, view.level, row.level);
    (level & sets) | (compaccess & level & !word::is_empty(row.compartments) & written)
}

// Is a row of that label writable?
pub fn writes_label(view: View, row: Label) -> bool
    ensures { result ≡ writes_label (rights_of view) (marks_of row) }
{
    writes_all(view) | write_tests(view, row)
}

// The label of the k-th label record.
pub fn label_at(image: &[u8], k: usize) -> Label
    requires { Counted image.now × (k < labels image.now) }
    ensures { marks_of result ≡ label_at image.now k }
{
    let rec = layout::record_part(image, Kind::Label, k);
    Label {
        level: rec[4],
        compartments: number8(rec, 8),
        groups: group_set(edition_of(image), rec, 16),
    }
}

// Tag 0 and unknown tags are for those who see every row, and in edition 2 for nobody.
fn is_unknown_seen(image: &[u8], all: bool) -> bool
    requires { 512 ≤ length image.now }
    ensures { result ≡ unknown_rule (edition_of image.now) all }
{
    match edition_of(image) {
        Edition::One => all,
        Edition::Two => false,
    }
}

// May the session read rows of such tags?
pub fn unknown_read(image: &[u8], view: View) -> bool
    requires { 512 ≤ length image.now }
    ensures { result ≡ unknown_read image.now (rights_of view) }
{
    is_unknown_seen(image, reads_all(view))
}

// The label at place k decides; where there is none, the edition. It is apart from the look-up of a tag, so that in a loop over rows neither saves
// registers for the other.
#[inline(always)]
pub fn reads_at(image: &[u8], view: View, k: usize) -> bool
    requires { Counted image.now }
    ensures { result ≡ reads_at image.now (rights_of view) k }
{
    if k < layout::labels(image) {
        return reads_label(view, label_at(image, k));
    }
    unknown_read(image, view)
}

// The tag's label decides; where none carries it, the edition.
pub fn may_read(image: &[u8], view: View, tag: u32) -> bool
    requires { IsAccepted image.now }
    ensures { result ≡ may_read image.now (rights_of view) tag }
{
    reads_at(image, view, label_of_tag(image, tag))
}

// The tag's label decides; where none carries it, the edition.
pub fn may_write(image: &[u8], view: View, tag: u32) -> bool
    requires { IsAccepted image.now }
    ensures { result ≡ may_write image.now (rights_of view) tag }
{
    let k = label_of_tag(image, tag);
    if k < layout::labels(image) {
        return writes_label(view, label_at(image, k));
    }
    is_unknown_seen(image, writes_all(view))
}
