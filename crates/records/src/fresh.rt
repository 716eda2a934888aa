// Inside a class the names of components differ, by a filter of bits. Each name that was passed has set two bits of one word, by a key that is
// worked out of its 30 bytes. So a name of which a bit is not set has not been passed: equal names that keep the rule of their field are 30
// equal bytes, the unused ones being zero, and have one key. Only where both bits are set, by the same name or by others, all names of the
// class before it are asked, their 30 bytes as four words. The filter is cleared where a class begins; only speed depends on that.
ghost use Rattle.std.specs.Prelude.{◌≡◌, ◌+◌, ◌-◌, ◌/◌, ◌%◌, ◌<◌, ◌≤◌, true, length};
ghost use Rattle.fields.specs.Names.{name_rule};
ghost use Rattle.fields.specs.Scan.{first_bad, first_where};
ghost use Rattle.header.specs.declared.layout.Kind.TheVariants.{Component};
ghost use Rattle.header.specs.Layout.{count_of, record_at, Fitted};
ghost use Rattle.records.specs.Fields.{component_name_field, component_name};
ghost use Rattle.records.specs.Rules.{record_in, run_record, other_name, new_name_from, fresh_rule};
ghost use Rattle.records.specs.Fresh.{name_key, marked, MarkedToo, field_of, alike, components_in, Whole, NamesKept, MarkedFrom, Marked, HoldsFrom};

use crate::components::{class_left, class_start};
use fields::numbers::number8;
use header::counts::Counts;
use header::layout::Kind;
use header::{layout, walk};
use sets::word;
use std::num::wrapping_add_u64;

pub type Filter = [u64; 128];

// No bit is set.
pub const EMPTY: Filter = [0u64; 128];

// What holds component records: an image, in its blocks, or a run of them, one right after the other. It stays an enum, no trait, as `first_stale`,
// a public function, takes it, and it says what the bytes are; only the search of `first_same` goes by it.
#[derive(Clone, Copy)]
pub enum Source {
    Image,
    Run,
}

// A number of the 30 bytes of the component's name.
fn name_key(rec: &[u8]) -> u64
    requires { 32 ≤ length rec.now }
    ensures { (result ≡ name_key rec.now) × (result < 524287) }
{
    let a = number8(rec, 2);
    let b = number8(rec, 10);
    let c = number8(rec, 18);
    let d = number8(rec, 24);
    let low = wrapping_add_u64(a, wrapping_add_u64(b, wrapping_add_u64(b, b)));
    let rest = wrapping_add_u64(c, wrapping_add_u64(d, d));
    let double = wrapping_add_u64(rest, rest);
    wrapping_add_u64(low, wrapping_add_u64(double, double)) % 524287
}

// Were both bits of the name set? They are from now on.
fn mark(seen: &mut [u64], rec: &[u8]) -> bool
    requires { (32 ≤ length rec.now) × (length seen.old ≡ 128) }
    ensures value { result ≡ marked seen.old (name_key rec.now) }
    ensures marked_too { MarkedToo (name_key rec.now) seen.old seen.new }
{
    let key = name_key(rec);
    let k = (key % 128) as usize;
    let p = (key / 128 % 64) as usize;
    let q = (key / 8192 % 64) as usize;
    let bits = word::with(word::with(0, p), q);
    let old = seen[k];
    seen[k] = word::union(old, bits);
    word::within(bits, old)
}

// The 30 bytes of a name's field as words, from bytes 2, 10, 18 and 24 of the record on; the last two overlap.
#[derive(Clone, Copy)]
struct Field {
    a: u64,
    b: u64,
    c: u64,
    d: u64,
}

fn field_of(rec: &[u8]) -> Field
    requires { 32 ≤ length rec.now }
    ensures { result ≡ field_of rec.now }
{
    Field {
        a: number8(rec, 2),
        b: number8(rec, 10),
        c: number8(rec, 18),
        d: number8(rec, 24),
    }
}

// Does the record have these words? The last is asked first: of names that begin alike it is the one that mostly differs.
fn is_alike(field: Field, rec: &[u8]) -> bool
    requires { 32 ≤ length rec.now }
    ensures { result ≡ alike field rec.now }
{
    if number8(rec, 24) != field.d {
        return false;
    }
    if number8(rec, 18) != field.c {
        return false;
    }
    if number8(rec, 10) != field.b {
        return false;
    }
    number8(rec, 2) == field.a
}

// The place of the first record of a run that has these words; their number where none has.
fn first_alike(run: &[u8], field: Field) -> usize
    requires { length run.now % 40 ≡ 0 }
    ensures { result ≡ first_where (λ j. alike field (run_record 40 run.now j)) (length run.now / 40) 0 }
{
    let count = run.len() / 40;
    for k in 0..count {
        let at = 40 * k;
        if is_alike(field, &run[at..at + 40]) {
            return k;
        }
    }
    count
}

// The first place from `start` up to `end` whose component has these words; `end` where none has. The records of a block are a run.
fn alike_in_image(image: &[u8], start: usize, end: usize, field: Field) -> usize
    requires { Fitted image.now × ((end ≤ count_of image.now Component) × (start ≤ end)) }
    ensures { result ≡ first_where (λ j. alike field (record_at image.now Component j)) (end - start) start }
{
    let shape = layout::shape_of(image, Kind::Component);
    let mut here = walk::record_at(shape, start);
    let mut from = start;
    // from block to block, which may begin anywhere in the first: no count
    while from < end {
        let to = end.min(from + here.left);
        let first = here.at;
        let last = first + 40 * (to - from);
        let j = from + first_alike(&image[first..last], field);
        if j < to {
            return j;
        }
        here = walk::next_block(shape, here, from);
        from = to;
    }
    from
}

// The first place from `start` up to `end` whose component has the name of the record; `end` where none has. Every name up to there keeps the rule of
// its field, and so does the record's: equal names are equal words.
fn first_same(source: Source, records: &[u8], start: usize, end: usize, rec: &[u8]) -> usize
    requires whole { Whole source records.now × ((end ≤ length (components_in source records.now)) × (start ≤ end)) }
    requires in_bounds { (32 ≤ length rec.now) × (name_rule (component_name_field rec.now) ≡ true) }
    requires names_kept { NamesKept (components_in source records.now) end }
    ensures { result ≡ first_bad (λ j. other_name (component_name rec.now) (record_in (components_in source records.now) j)) (end - start) start }
{
    let field = field_of(rec);
    match source {
        Source::Image => alike_in_image(records, start, end, field),
        Source::Run => start + first_alike(&records[40 * start..40 * end], field),
    }
}

// Has no component from `start`, where its class begins, up to place i the name of the one at place i?
fn is_fresh(
    source: Source,
    records: &[u8],
    start: usize,
    seen: &mut Filter,
    i: usize,
    rec: &[u8],
) -> bool
    requires whole { Whole source records.now × ((start ≤ i) × (i < length (components_in source records.now))) }
    requires rec_value { (rec.now ≡ record_in (components_in source records.now) i) × (length rec.now ≡ 40) }
    requires names_kept { NamesKept (components_in source records.now) (i + 1) × MarkedFrom (components_in source records.now) start i seen.old }
    ensures value { result ≡ new_name_from start (components_in source records.now) i }
    ensures marked_from { MarkedFrom (components_in source records.now) start (i + 1) seen.new }
{
    if !mark(seen, rec) {
        return true;
    }
    first_same(source, records, start, i, rec) == i
}

// The same as `first_stale`, of places of one class, which begins at `start`.
fn stale_in_class(
    source: Source,
    records: &[u8],
    start: usize,
    seen: &mut Filter,
    from: usize,
    to: usize,
    run: &[u8],
) -> usize
    requires whole { Whole source records.now × ((start ≤ from) × ((from ≤ to) × (to ≤ length (components_in source records.now)))) }
    requires holds_from { HoldsFrom (components_in source records.now) from to run.now }
    requires names_kept { NamesKept (components_in source records.now) to × MarkedFrom (components_in source records.now) start from seen.old }
    ensures value { result ≡ first_bad (new_name_from start (components_in source records.now)) (to - from) from }
    ensures marked_from { result ≡ to → MarkedFrom (components_in source records.now) start to seen.new }
{
    if from == start {
        *seen = EMPTY;
    }
    for i in from..to {
        let at = 40 * (i - from);
        let rec = &run[at..at + 40];
        if !is_fresh(source, records, start, seen, i, rec) {
            return i;
        }
    }
    to
}

// The first of the places from `from` up to `to` whose component has the name of one before it in its class; `to` where there is none. The run
// holds the records of these places. Up to there every name keeps the rule of its field. Class by class, so that where a class begins is worked
// out once for a class.
pub fn first_stale(
    source: Source,
    records: &[u8],
    counts: Counts,
    seen: &mut Filter,
    from: usize,
    to: usize,
    run: &[u8],
) -> usize
    requires whole { Whole source records.now × ((from ≤ to) × (to ≤ length (components_in source records.now))) }
    requires holds_from { HoldsFrom (components_in source records.now) from to run.now }
    requires names_kept { NamesKept (components_in source records.now) to × Marked counts (components_in source records.now) from seen.old }
    ensures value { result ≡ first_bad (fresh_rule Component counts (components_in source records.now)) (to - from) from }
    ensures marked { result ≡ to → Marked counts (components_in source records.now) to seen.new }
{
    let mut i = from;
    // from class to class, as `class_left` tells: no count
    while i < to {
        let end = i + class_left(counts, i, to - i);
        let start = class_start(counts, i);
        let part = &run[40 * (i - from)..40 * (end - from)];
        let bad = stale_in_class(source, records, start, seen, i, end, part);
        if bad < end {
            return bad;
        }
        i = end;
    }
    i
}
