// The first full blocks of labels in which nothing is wrong. Nearly always these are all but the last, so they are passed in a loop of few
// steps, and the walk over the kind's blocks begins after them. That is right for any number of blocks that are fine: a block that breaks a
// rule, and the last one where it isn't full, are left to the walk, which tells what is wrong. Of all sets that a block's labels name the
// union is held against what exists, once for the block.
ghost use Rattle.std.specs.Prelude.{◌≡◌, ◌+◌, ◌*◌, ◌%◌, ◌≤◌, length, ◌≢◌};
ghost use Rattle.header.specs.declared.layout.Kind.TheVariants.{Label};
ghost use Rattle.header.specs.Layout.{counts_of, record_size, first_block, Roomy, Shaped};
ghost use Rattle.header.specs.Limits.{Counted};
ghost use Rattle.records.specs.Existing.{Exist};
ghost use Rattle.records.specs.Kinds.{KeptUpto};
ghost use Rattle.records.specs.LabelBlocks.{AllGathered, FineBlock};

use crate::existing::Existing;
use crate::group_sets::group_set;
use fields::numbers::{all_zero, number2, number4, number8};
use header::edition::Edition;
use header::layout::Shape;
use sets::groups::Groups;
use sets::word;

// The last tag of a run's labels, and all compartments and groups that they name; tag 0 where the tags don't rise or a level doesn't exist.
#[derive(Clone, Copy)]
struct Gathered {
    last: u32,
    compartments: u64,
    groups: Groups,
}

// The tag before the first of the run is `before`, 0 where there is none; so every tag is 1 or more. The level and the three unused bytes
// after it are one number, as in label_run.
fn gather(edition: Edition, size: usize, run: &[u8], before: u32, levels: u32) -> Gathered
    requires { (size ≡ record_size edition Label) × (length run.now % size ≡ 0) }
    ensures { AllGathered edition size run.now before levels result }
{
    let mut last = before;
    let mut compartments = 0u64;
    let mut groups = Groups::none();
    for j in 0..run.len() / size {
        let at = size * j;
        let rec = &run[at..at + size];
        let tag = number4(rec, 0);
        if (tag <= last) | (levels <= number4(rec, 4)) {
            return Gathered {
                last: 0,
                compartments,
                groups,
            };
        }
        compartments = word::union(compartments, number8(rec, 8));
        groups = groups.union(group_set(edition, rec, 16));
        last = tag;
    }
    Gathered {
        last,
        compartments,
        groups,
    }
}

// The same with the size as a constant in each arm, so that the compiler makes a loop for each edition: one instruction less for each
// label, and one more register free.
fn gather_by(edition: Edition, run: &[u8], before: u32, levels: u32) -> Gathered
    requires { length run.now % record_size edition Label ≡ 0 }
    ensures { AllGathered edition (record_size edition Label) run.now before levels result }
{
    match edition {
        Edition::One => gather(Edition::One, 24, run, before, levels),
        Edition::Two => gather(Edition::Two, 48, run, before, levels),
    }
}

// The last tag of a full block of labels in which nothing is wrong; 0 of another block. Its first two bytes, the kind and the number of
// records, are one number.
fn last_of_block(existing: Existing, shape: Shape, before: u32, block: &[u8]) -> u32
    requires exist { Exist existing × (existing.counts.levels ≤ 256) }
    requires size_value { (shape.size ≡ record_size existing.counts.edition Label) × (Roomy shape × (length block.now ≡ 512)) }
    ensures { (result ≢ 0) → FineBlock existing.counts shape before block.now result }
{
    let levels = existing.counts.levels as u32;
    let end = 4 + shape.size * shape.capacity;
    let head = 76 + 256 * (shape.capacity as u32);
    if (number2(block, 0) != head) | !all_zero(&block[end..510]) {
        return 0;
    }
    let all = gather_by(existing.counts.edition, &block[4..end], before, levels);
    let exist = word::within(all.compartments, existing.compartments)
        & all.groups.within(existing.groups);
    if exist & (all.last <= 99999999) {
        all.last
    } else {
        0
    }
}

// So many of the first blocks of labels are full and fine, up to the first that is not. Only that these are fine is claimed: how many are passed is a
// matter of speed alone.
pub fn fine_label_blocks(image: &[u8], existing: Existing, shape: Shape) -> usize
    requires counted { Counted image.now × (Exist existing × (existing.counts ≡ counts_of image.now)) }
    requires shaped { Shaped image.now Label shape }
    ensures { KeptUpto image.now Label (first_block image.now Label + result) × (shape.capacity * result ≤ shape.count) }
{
    let full = shape.count / shape.capacity;
    let mut last = 0;
    for k in 0..full {
        let at = 512 * (shape.first + k);
        last = last_of_block(existing, shape, last, &image[at..at + 512]);
        if last == 0 {
            return k;
        }
    }
    full
}
