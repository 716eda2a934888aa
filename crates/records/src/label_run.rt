// The labels of a run, one right after the other: what is asked of each and of the one before it. Of the one before only the tag is asked,
// so the loop carries that; 0 before the first label of all, where every tag from 1 on is higher. The level and the three unused bytes
// after it are one number: it is below the count of levels exactly if the level is and they are zero. Tags rise, so whether one is above
// the highest that a label may have is asked from the last one back, up to the first that is not.
ghost use Rattle.std.specs.Prelude.{◌≡◌, ◌*◌, ◌/◌, ◌%◌, ◌≤◌, length, if◌then◌else◌, nat_eq};
ghost use Rattle.fields.specs.Scan.{first_bad};
ghost use Rattle.header.specs.declared.layout.Kind.TheVariants.{Label};
ghost use Rattle.header.specs.Layout.{record_size};
ghost use Rattle.records.specs.Existing.{Exist};
ghost use Rattle.records.specs.Fields.{tag_of};
ghost use Rattle.records.specs.LabelRuns.{label_after, run_after, tag_limited, TagsRise};
ghost use Rattle.records.specs.Rules.{first_bad_of_run};

use crate::existing::Existing;
use crate::group_sets::groups_exist;
use fields::numbers::{number4, number8};
use header::layout;
use header::layout::Kind;
use sets::word;

// The tag of the record before the label at place k; 0 where there is none.
fn tag_before(k: usize, previous: &[u8]) -> u32
    requires { 24 ≤ length previous.now }
    ensures { result ≡ (if nat_eq k 0 then 0 else tag_of previous.now) }
{
    if k == 0 { 0 } else { number4(previous, 0) }
}

// What the label's record must be, but for the highest tag, and its tag is higher than `before`.
fn label_ok(existing: Existing, before: u32, rec: &[u8]) -> bool
    requires exist { Exist existing × (existing.counts.levels ≤ 256) }
    requires rec_len { (length rec.now ≡ record_size existing.counts.edition Label) × (24 ≤ length rec.now) }
    ensures { result ≡ label_after existing.counts before rec.now }
{
    let levels = existing.counts.levels as u32;
    if number4(rec, 0) <= before {
        return false;
    }
    if levels <= number4(rec, 4) {
        return false;
    }
    if !word::within(number8(rec, 8), existing.compartments) {
        return false;
    }
    groups_exist(existing.counts.edition, rec, 16, existing.groups)
}

// The first that is not so; their number where all are. The tag before the first of the run is `first`.
fn first_wrong(existing: Existing, size: usize, first: u32, run: &[u8]) -> usize
    requires exist { Exist existing × (existing.counts.levels ≤ 256) }
    requires size_value { (size ≡ record_size existing.counts.edition Label) × (length run.now % size ≡ 0) }
    ensures { result ≡ first_bad (run_after existing.counts size first run.now) (length run.now / size) 0 }
{
    let count = run.len() / size;
    let mut before = first;
    for j in 0..count {
        let at = size * j;
        let rec = &run[at..at + size];
        if !label_ok(existing, before, rec) {
            return j;
        }
        before = number4(rec, 0);
    }
    count
}

// The first of n labels whose tag is above the highest; n where none is. It goes back from the last: nearly always that one's tag is not.
fn first_above(size: usize, run: &[u8], n: usize) -> usize
    requires le_size { (24 ≤ size) × (size * n ≤ length run.now) }
    requires tags_rise { TagsRise size run.now n }
    ensures { result ≡ first_bad (tag_limited size run.now) n 0 }
{
    for j in (0..n).rev() {
        let at = size * j;
        if number4(&run[at..at + size], 0) <= 99999999 {
            return j + 1;
        }
    }
    0
}

// The first that breaks a rule; their number where none does. The first of the run is at place k.
pub fn first_bad_label(existing: Existing, k: usize, previous: &[u8], run: &[u8]) -> usize
    requires exist { Exist existing × (existing.counts.levels ≤ 256) }
    requires edition_len { (length run.now % record_size existing.counts.edition Label ≡ 0) × (24 ≤ length previous.now) }
    ensures { result ≡ first_bad_of_run Label existing.counts k previous.now run.now }
{
    let size = layout::size(existing.counts.edition, Kind::Label);
    let before = tag_before(k, previous);
    let n = first_wrong(existing, size, before, run);
    first_above(size, run, n)
}
