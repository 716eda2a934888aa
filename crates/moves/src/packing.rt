// The blocks of a kind as a move writes them: as many records in each as a block of the new edition holds.
ghost use Rattle.std.specs.Prelude.{◌+◌, ◌*◌, ◌≤◌, ◌<◌, ◌≡◌, length};
ghost use mathlib.Core.List.{flatten};
ghost use Rattle.buffers.specs.Pasting.{Written};
ghost use Rattle.header.specs.declared.edition.Edition.TheVariants.{One};
ghost use Rattle.header.specs.Layout.{edition_of, kind_byte, count_of, Fitted};
ghost use Rattle.writing.specs.Laid.{block_of};
ghost use Rattle.moves.specs.Parts.{new_run, new_capacity, new_blocks, new_kind};

use crate::record::put_record;
use crate::target::Step;
use header::contents::lower;
use header::layout;
use header::layout::Kind;
use writing::block::{put_end, put_head};
use writing::laying;

// How many blocks the records of the kind need.
pub(crate) fn blocks_for<S: Step>(image: &[u8], kind: Kind) -> usize
    requires { 512 ≤ length image.now }
    ensures { (result ≡ new_blocks S.which image.now kind) × (result < 131092) }
{
    let count = layout::count(image, kind);
    laying::blocks_for(S::edition(), kind, count)
}

// Writes the records of the kind from place `from` up to `to`, one after the other.
fn put_records<S: Step>(
    image: &[u8],
    kind: Kind,
    from: usize,
    to: usize,
    buffer: &mut [u8],
    at: usize,
) -> usize
    requires fitted { Fitted image.now × ((edition_of image.now ≡ One) × (to ≤ count_of image.now kind)) }
    requires to_in_bounds { at + length (flatten (new_run S.which image.now kind from to)) ≤ length buffer.old }
    ensures { Written buffer.old at (flatten (new_run S.which image.now kind from to)) buffer.new result }
{
    let mut end = at;
    for i in from..to {
        end = put_record::<S>(image, kind, i, buffer, end);
    }
    end
}

// Writes the block at that place with those records.
fn move_block<S: Step>(
    image: &[u8],
    kind: Kind,
    place: usize,
    from: usize,
    to: usize,
    buffer: &mut [u8],
    at: usize,
) -> usize
    requires fitted { Fitted image.now × ((edition_of image.now ≡ One) × (to ≤ count_of image.now kind)) }
    requires from_le_to { (from ≤ to) × (to ≤ from + new_capacity S.which kind) }
    requires place_bound { (place < 65536) × (at + 512 ≤ length buffer.old) }
    ensures { Written buffer.old at (block_of (kind_byte kind) place (new_run S.which image.now kind from to)) buffer.new result }
{
    let count = (to - from) as u8;
    let head = put_head(layout::kind_byte(kind), count, place, buffer, at);
    let end = put_records::<S>(image, kind, from, to, buffer, head);
    let used = end - at;
    put_end(buffer, at, used)
}

// Writes all blocks of the kind, the first of them at that place.
pub(crate) fn move_kind<S: Step>(
    image: &[u8],
    kind: Kind,
    place: usize,
    buffer: &mut [u8],
    at: usize,
) -> usize
    requires fitted { Fitted image.now × ((edition_of image.now ≡ One) × (place + count_of image.now kind ≤ 65536)) }
    requires kind_in_bounds { at + 512 * new_blocks S.which image.now kind ≤ length buffer.old }
    ensures { Written buffer.old at (new_kind S.which image.now kind place) buffer.new result }
{
    let held = layout::capacity(S::edition(), kind);
    let count = layout::count(image, kind);
    let mut end = at;
    let mut b = place;
    let mut from = 0;
    // Stays `while`: `from` moves on to `to`, which the turn computes. A `for` over the blocks would multiply to find both, which is no plainer.
    while from < count {
        let to = lower(count, from + held);
        end = move_block::<S>(image, kind, b, from, to, buffer, end);
        b += 1;
        from = to;
    }
    end
}
