// The components of a run, one right after the other: what is asked of each and of the one before it. Their names among each other are
// asked apart, by `fresh`. A run is asked class by class, so that what is the same for a class is worked out once. Of the record before only
// the numeric form is asked, so the loop carries the lowest that the next may have. The parent's place and the unused bytes after it are one
// number: it is that of no parent, or below the count of parents, exactly if the place is and they are zero.
ghost use Rattle.std.specs.Prelude.{◌≡◌, ◌/◌, ◌%◌, ◌<◌, ◌≤◌, length};
ghost use Rattle.fields.specs.Scan.{first_bad};
ghost use Rattle.header.specs.declared.layout.Kind.TheVariants.{Component};
ghost use Rattle.header.specs.Layout.{class_at};
ghost use Rattle.records.specs.ComponentRuns.{parents_among, asked_of, lowest_form, component_after, run_asked};
ghost use Rattle.records.specs.Rules.{parent_count, first_bad_of_run};

use crate::components::{class_left, class_start, parent_count};
use fields::name_field::name_ok;
use fields::numbers::{number2, number8};
use header::counts::{Counts, class_at};
use header::edition::by_edition;

// What is asked of every component of a class: its class byte, and of the number in bytes 34 to 39 that it is `none` or below `parents`.
#[derive(Clone, Copy)]
struct Asked {
    class: u8,
    none: u64,
    parents: u64,
}

// The parents that a component of the class may have. A place of a parent has one byte, in edition 2 two, so that a higher number has a byte
// after it that is not zero.
fn parents_of(counts: Counts, class: u8) -> usize
    ensures { result ≡ parents_among counts.edition class (parent_count counts) }
{
    if class != 3 {
        return 0;
    }
    parent_count(counts).min(by_edition(counts.edition, 256, 65536))
}

fn asked_at(counts: Counts, i: usize) -> Asked
    ensures { result ≡ asked_of counts (class_at counts i) }
{
    let class = class_at(counts, i);
    Asked {
        class,
        none: by_edition(counts.edition, 255, 65535) as u64,
        parents: parents_of(counts, class) as u64,
    }
}

// The lowest numeric form that the component at place i may have: any at the first of its class, else one above the record before it.
fn lowest_form(counts: Counts, i: usize, previous: &[u8]) -> u32
    requires { 40 ≤ length previous.now }
    ensures { result ≡ lowest_form counts i previous.now }
{
    if i == class_start(counts, i) {
        return 0;
    }
    number2(previous, 32) + 1
}

// Does the component keep its rules? Its numeric form is to be `low` or more.
fn component_fits(asked: Asked, low: u32, rec: &[u8]) -> bool
    requires { length rec.now ≡ 40 }
    ensures { result ≡ component_after asked low rec.now }
{
    let parent = number8(rec, 32) / 65536;
    let form = number2(rec, 32);
    if rec[0] != asked.class {
        return false;
    }
    if form < low {
        return false;
    }
    if 9999 < form {
        return false;
    }
    if (parent != asked.none) & (asked.parents <= parent) {
        return false;
    }
    name_ok(rec[1], &rec[2..35])
}

// The first component of a run of one class that doesn't; their number where all do. The first of the run has `first` as its lowest form.
fn first_bad_in_class(asked: Asked, first: u32, run: &[u8]) -> usize
    requires { length run.now % 40 ≡ 0 }
    ensures { result ≡ first_bad (run_asked asked first run.now) (length run.now / 40) 0 }
{
    let count = run.len() / 40;
    let mut low = first;
    for j in 0..count {
        let at = 40 * j;
        let rec = &run[at..at + 40];
        if !component_fits(asked, low, rec) {
            return j;
        }
        low = number2(rec, 32) + 1;
    }
    count
}

// The first that breaks a rule; their number where none does. The first of the run is at place k. Only the first class of the run may have
// begun before it, so only there the record before is asked.
pub fn first_bad_component(counts: Counts, k: usize, previous: &[u8], run: &[u8]) -> usize
    requires { (length run.now % 40 ≡ 0) × ((40 ≤ length previous.now) × (k < 4294967296)) }
    ensures { result ≡ first_bad_of_run Component counts k previous.now run.now }
{
    let n = run.len() / 40;
    let mut low = lowest_form(counts, k, previous);
    let mut j = 0;
    // from class to class, as `class_left` tells: no count
    while j < n {
        let i = k + j;
        let to = j + class_left(counts, i, n - j);
        let bad = j + first_bad_in_class(asked_at(counts, i), low, &run[40 * j..40 * to]);
        if bad < to {
            return bad;
        }
        low = 0;
        j = to;
    }
    j
}
