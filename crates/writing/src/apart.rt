// The records of an accepted image, without blocks.
ghost use Rattle.std.specs.Prelude.{◌≤◌, ◌<◌, ◌≡◌, length};
ghost use mathlib.Core.List.{flatten};
ghost use Rattle.buffers.specs.Filling.{written_to};
ghost use Rattle.buffers.specs.Pasting.{Written};
ghost use Rattle.header.specs.Layout.{count_of, Fitted, Shaped, OneBlock, records_of};
ghost use Rattle.header.specs.Limits.{Counted};
ghost use Rattle.records.specs.Kinds.{RunOf};
ghost use Rattle.writing.specs.Calls.{records_given_of};

use buffers::given::put;
use header::contents::lower;
use header::layout::{Kind, Shape};
use header::{layout, walk};
use image::check;
use refusals::Refusal;

// The records from `from` up to `to`. They stand in one block, the first of them at `first`, so that they are a run.
fn run_in_block<'a>(
    image: &'a [u8],
    shape: Shape,
    kind: Kind,
    first: usize,
    from: usize,
    to: usize,
) -> &'a [u8]
    requires fitted { Fitted image.now × Shaped image.now kind shape }
    requires to_bound { (to ≤ count_of image.now kind) × ((from < to) × OneBlock image.now kind first from to) }
    ensures { RunOf image.now kind from to result.now }
{
    let end = first + shape.size * (to - from);
    &image[first..end]
}

// Writes the records of the kind to the front of the buffer, one right after the other, and tells where they end. Block by block, since the
// records of a block stand so already.
fn put_records(image: &[u8], kind: Kind, buffer: &mut [u8]) -> usize
    requires { Counted image.now × (length (flatten (records_of image.now kind)) ≤ length buffer.old) }
    ensures { Written buffer.old 0 (flatten (records_of image.now kind)) buffer.new result }
{
    let shape = layout::shape_of(image, kind);
    let mut here = walk::record_at(shape, 0);
    let mut end = 0;
    let mut from = 0;
    // No counted loop: the next turn begins where the block ends.
    while from < shape.count {
        let to = lower(shape.count, from + here.left);
        let run = run_in_block(image, shape, kind, here.at, from, to);
        end = put(run, buffer, end);
        here = walk::next_block(shape, here, from);
        from = to;
    }
    end
}

// Refusal: 13.
fn give_records(image: &[u8], kind: Kind, buffer: &mut [u8]) -> Result<usize, Refusal>
    requires { Counted image.now }
    ensures { (result, buffer.new) ≡ written_to buffer.old (flatten (records_of image.now kind)) }
{
    let shape = layout::shape_of(image, kind);
    if buffer.len() < shape.size * shape.count {
        return Err(Refusal::Room);
    }
    Ok(put_records(image, kind, buffer))
}

// Refusals: 1, 2, 31 to 35, 13.
pub(crate) fn records_given(image: &[u8], kind: Kind, buffer: &mut [u8]) -> Result<usize, Refusal>
    ensures { (result, buffer.new) ≡ records_given_of kind image.now buffer.old }
{
    // `match` and no `?`: so the must-fail edit of the refused case is refused for the answer alone, and not since `map_err` has no proof.
    match check(image) {
        Ok(()) => give_records(image, kind, buffer),
        Err(refusal) => Err(refusal),
    }
}
