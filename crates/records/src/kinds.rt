// The blocks of one kind, one after the other, up to the first that breaks a rule. The walk works out the kind's shape once; from block to
// block only sums are made.
ghost use Rattle.std.specs.Prelude.{◌≡◌, ◌+◌, ◌-◌, ◌*◌, ◌<◌, ◌≤◌, length};
ghost use Rattle.fields.specs.Scan.{first_bad};
ghost use Rattle.header.specs.declared.layout.Kind.TheVariants.{Component};
ghost use Rattle.header.specs.declared.edition.Edition.TheVariants.{One};
ghost use Rattle.header.specs.Layout.{counts_of, record_size, count_of, first_block, blocks_needed, Fitted, records_of, Shaped, contents_of};
ghost use Rattle.header.specs.Limits.{Counted};
ghost use Rattle.records.specs.Existing.{Exist};
ghost use Rattle.records.specs.Fresh.{NamesKept, HoldsFrom};
ghost use Rattle.records.specs.Rules.{record_in, fresh_rule, layout_rule, first_bad_record};
ghost use Rattle.records.specs.Kinds.{OfKind, RunOf, KeptUpto, Passed, FoundIn};

use crate::existing::Existing;
use crate::fresh::{Filter, Source, first_stale};
use crate::label_blocks::fine_label_blocks;
use crate::runs::first_bad_after;
use fields::numbers::all_zero;
use header::counts::Counts;
use header::layout;
use header::layout::{Contents, Kind, Shape, kind_byte};

// What is wrong with a block: its layout, or, where that is right, the record at that place.
#[derive(Clone, Copy)]
pub enum Found {
    Layout(usize),
    Record(usize, usize),
}

// Kind and number of records are those that the block is to hold, and the bytes after the records are zero.
pub(crate) fn laid_out(image: &[u8], b: usize, held: Contents) -> bool
    requires counted { Counted image.now × ((1 ≤ b) × (b < blocks_needed image.now)) }
    requires held_value { held ≡ contents_of image.now b }
    ensures { result ≡ layout_rule image.now b }
{
    let at = 512 * b;
    let unused = at + held.end;
    let end = at + 510;
    (image[at] == kind_byte(held.kind))
        & (image[at + 1] as usize == held.to - held.from)
        & all_zero(&image[unused..end])
}

// The first of the places from `from` up to `to` whose record isn't new among those before it; `to` where there is none. That is asked of
// components alone. The run holds their records.
fn first_known(
    image: &[u8],
    counts: Counts,
    kind: Kind,
    seen: &mut Filter,
    from: usize,
    to: usize,
    run: &[u8],
) -> usize
    requires fitted { Fitted image.now × ((counts ≡ counts_of image.now) × ((from ≤ to) × (to ≤ count_of image.now kind))) }
    requires holds_from { kind ≡ Component → HoldsFrom (records_of image.now Component) from to run.now }
    requires names_kept { (kind ≡ Component → NamesKept (records_of image.now Component) to) × Passed image.now kind from seen.old }
    ensures value { result ≡ first_bad (fresh_rule kind counts (records_of image.now kind)) (to - from) from }
    ensures passed { result ≡ to → Passed image.now kind to seen.new }
{
    match kind {
        Kind::Component => first_stale(Source::Image, image, counts, seen, from, to, run),
        Kind::Label => to,
        Kind::User => to,
    }
}

// The records of block b, as a run.
fn records_of(image: &[u8], b: usize, held: Contents) -> &[u8]
    requires { Fitted image.now × (OfKind image.now held.kind b × (held ≡ contents_of image.now b)) }
    ensures { RunOf image.now held.kind held.from held.to result.now }
{
    let start = 512 * b + 4;
    let end = 512 * b + held.end;
    &image[start..end]
}

// The record before the first of block b: the last of the block before it, which is full. Before the first of the kind's blocks it is
// whatever stands there, which no rule asks.
fn last_before(image: &[u8], shape: Shape, kind: Kind, b: usize) -> &[u8]
    requires { Fitted image.now × (Shaped image.now kind shape × OfKind image.now kind b) }
    ensures kind_in_bounds { record_size One kind ≤ length result.now }
    ensures result_value { 1 ≤ shape.capacity * (b - shape.first)
        → result.now ≡ record_in (records_of image.now kind) (shape.capacity * (b - shape.first) - 1) }
{
    let at = 512 * (b - 1) + 4 + shape.size * (shape.capacity - 1);
    let end = at + shape.size;
    &image[at..end]
}

// The lowest record of block b that breaks a rule; `to` where there is none.
fn first_bad_held(
    image: &[u8],
    existing: Existing,
    shape: Shape,
    b: usize,
    held: Contents,
    seen: &mut Filter,
) -> usize
    requires counted { Counted image.now × (Exist existing × (existing.counts ≡ counts_of image.now)) }
    requires shaped { Shaped image.now held.kind shape × (OfKind image.now held.kind b × (held ≡ contents_of image.now b)) }
    requires passed { Passed image.now held.kind held.from seen.old }
    ensures value { result ≡ first_bad_record image.now b }
    ensures passed_2 { result ≡ held.to → Passed image.now held.kind held.to seen.new }
{
    let kind = held.kind;
    let from = held.from;
    let run = records_of(image, b, held);
    let previous = last_before(image, shape, kind, b);
    let j = first_bad_after(existing, kind, from, previous, run);
    first_known(image, existing.counts, kind, seen, from, from + j, run)
}

// How many of the kind's first blocks are known to be fine; asked of labels alone, which have the most blocks.
fn fine_blocks(image: &[u8], existing: Existing, shape: Shape, kind: Kind) -> usize
    requires counted { Counted image.now × (Exist existing × (existing.counts ≡ counts_of image.now)) }
    requires shaped { Shaped image.now kind shape }
    ensures kept_upto { KeptUpto image.now kind (first_block image.now kind + result) × (shape.capacity * result ≤ shape.count) }
    ensures value { kind ≡ Component → result ≡ 0 }
{
    match kind {
        Kind::Component => 0,
        Kind::Label => fine_label_blocks(image, existing, shape),
        Kind::User => 0,
    }
}

// The first block of the kind that breaks a rule, and which.
pub fn first_bad_of_kind(
    image: &[u8],
    existing: Existing,
    kind: Kind,
    seen: &mut Filter,
) -> Option<Found>
    requires { Counted image.now × (Exist existing × (existing.counts ≡ counts_of image.now)) }
    ensures { FoundIn image.now kind result }
{
    let shape = layout::shape_of(image, kind);
    let fine = fine_blocks(image, existing, shape, kind);
    let mut b = shape.first + fine;
    let mut from = shape.capacity * fine;
    // b and `from` go on together by sums; a `for` over blocks would divide once more, to count them, and is no plainer
    while from < shape.count {
        let to = shape.count.min(from + shape.capacity);
        let end = 4 + shape.size * (to - from);
        let held = Contents {
            kind,
            from,
            to,
            end,
        };
        if !laid_out(image, b, held) {
            return Some(Found::Layout(b));
        }
        let i = first_bad_held(image, existing, shape, b, held, seen);
        if i < to {
            return Some(Found::Record(b, i - from));
        }
        from += shape.capacity;
        b += 1;
    }
    None
}
