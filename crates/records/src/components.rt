// What a component record holds, where a class begins and ends, and searches for a name.
ghost use Rattle.std.specs.Prelude.{◌≡◌, ◌+◌, ◌-◌, ◌/◌, ◌%◌, ◌<◌, ◌≤◌, length};
ghost use Rattle.fields.specs.Names.{same_bytes, in_letters};
ghost use Rattle.fields.specs.Scan.{first_bad};
ghost use Rattle.header.specs.declared.layout.Kind.TheVariants.{Component};
ghost use Rattle.header.specs.Layout.{edition_of, count_of, record_size, Fitted, record_at, OneBlock};
ghost use Rattle.records.specs.ComponentRuns.{ClassUpto};
ghost use Rattle.records.specs.Fields.{component_name_length, component_name, parent_of};
ghost use Rattle.records.specs.Rules.{class_start, parent_count, run_named, others_named};

use fields::names;
use fields::names::Letters;
use fields::numbers::number2;
use header::counts::Counts;
use header::edition::{Edition, edition_of};
use header::layout::Kind;
use header::profile::Profile;
use header::{layout, walk};

// The parent's place among groups, as the record has it.
pub fn parent_in(edition: Edition, rec: &[u8]) -> usize
    requires { length rec.now ≡ record_size edition Component }
    ensures { (result ≡ parent_of edition rec.now) × (result < 65536) }
{
    match edition {
        Edition::One => rec[34] as usize,
        Edition::Two => number2(rec, 34) as usize,
    }
}

pub fn component_name(image: &[u8], i: usize) -> &[u8]
    requires { Fitted image.now × (i < count_of image.now Component) }
    ensures { result.now ≡ component_name (record_at image.now Component i) }
{
    let rec = layout::record_part(image, Kind::Component, i);
    names::name_in(&rec[1..32])
}

pub fn name_length(image: &[u8], i: usize) -> usize
    requires { Fitted image.now × (i < count_of image.now Component) }
    ensures { result ≡ component_name_length (record_at image.now Component i) }
{
    let rec = layout::record_part(image, Kind::Component, i);
    rec[1] as usize
}

// The parent's place among groups, as the record has it.
pub fn parent(image: &[u8], i: usize) -> usize
    requires { Fitted image.now × (i < count_of image.now Component) }
    ensures { (result ≡ parent_of (edition_of image.now) (record_at image.now Component i)) × (result < 65536) }
{
    let rec = layout::record_part(image, Kind::Component, i);
    parent_in(edition_of(image), rec)
}

// The place of the first component of the class at place i.
pub fn class_start(counts: Counts, i: usize) -> usize
    ensures { (result ≡ class_start counts i) × (result ≤ i) }
{
    if i < counts.levels {
        return 0;
    }
    if i - counts.levels < counts.compartments {
        return counts.levels;
    }
    counts.levels + counts.compartments
}

// How many of the `left` places from i on are of the class at place i.
pub(crate) fn class_left(counts: Counts, i: usize, left: usize) -> usize
    requires { 0 < left }
    ensures { ClassUpto counts i (i + left) (i + result) }
{
    if i < counts.levels {
        return left.min(counts.levels - i);
    }
    if i - counts.levels < counts.compartments {
        return left.min(counts.compartments - (i - counts.levels));
    }
    left
}

// Does the component have that name, in those letters? Most names differ in length. A stored length past the field counts as 30, so the stored
// byte alone tells only of names shorter than that.
fn is_named(letters: Letters, rec: &[u8], name: &[u8]) -> bool
    requires { length rec.now ≡ 40 }
    ensures { result ≡ same_bytes (component_name rec.now) (in_letters letters name.now) }
{
    let n = rec[1] as usize;
    if (n != name.len()) & (name.len() < 30) {
        return false;
    }
    names::same_in(letters, names::name_in(&rec[1..32]), name)
}

// The place of the first component with that name in a run of component records, one right after the other; their number where none has it.
pub fn first_in_run(run: &[u8], letters: Letters, name: &[u8]) -> usize
    requires { length run.now % 40 ≡ 0 }
    ensures { result ≡ first_bad (run_named run.now (in_letters letters name.now)) (length run.now / 40) 0 }
{
    let count = run.len() / 40;
    for k in 0..count {
        let at = 40 * k;
        if is_named(letters, &run[at..at + 40], name) {
            return k;
        }
    }
    count
}

// The first place from `from` up to `to` whose component has that name; `to` where none has. Their records stand in one
// block, the first of them at `first`, so that they are a run.
fn first_in_block(
    image: &[u8],
    first: usize,
    from: usize,
    to: usize,
    letters: Letters,
    name: &[u8],
) -> usize
    requires { Fitted image.now × ((to ≤ count_of image.now Component) × ((from < to) × OneBlock image.now Component first from to)) }
    ensures { result ≡ first_bad (others_named image.now (in_letters letters name.now)) (to - from) from }
{
    let end = first + 40 * (to - from);
    from + first_in_run(&image[first..end], letters, name)
}

// The first place from `start` up to `end` whose component has that name, in those letters; `end` where none has.
pub fn first_named(image: &[u8], start: usize, end: usize, letters: Letters, name: &[u8]) -> usize
    requires { Fitted image.now × ((end ≤ count_of image.now Component) × (start ≤ end)) }
    ensures { result ≡ first_bad (others_named image.now (in_letters letters name.now)) (end - start) start }
{
    let shape = layout::shape_of(image, Kind::Component);
    let mut here = walk::record_at(shape, start);
    let mut from = start;
    // from block to block, which may begin anywhere in the first: no count
    while from < end {
        let to = end.min(from + here.left);
        let j = first_in_block(image, here.at, from, to, letters, name);
        if j < to {
            return j;
        }
        here = walk::next_block(shape, here, from);
        from = to;
    }
    from
}

// The groups that may be a parent: in the release profile there is none.
pub(crate) fn parent_count(counts: Counts) -> usize
    ensures { result ≡ parent_count counts }
{
    match counts.profile {
        Profile::Tree => counts.groups,
        Profile::Release => 0,
    }
}
