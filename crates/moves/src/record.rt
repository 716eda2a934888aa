// The records of an image of edition 1 as a move writes them.
ghost use Rattle.std.specs.Prelude.{◌+◌, ◌<◌, ◌≤◌, ◌≡◌, length};
ghost use Rattle.buffers.specs.Pasting.{Written};
ghost use Rattle.header.specs.declared.edition.Edition.TheVariants.{One};
ghost use Rattle.header.specs.Layout.{edition_of, count_of, record_size, Fitted, record_at};
ghost use Rattle.moves.specs.Moved.{edition_after, new_record};

use crate::target::Step;
use header::layout;
use header::layout::Kind;

// Writes the record of that kind at place i.
pub(crate) fn put_record<S: Step>(
    image: &[u8],
    kind: Kind,
    i: usize,
    buffer: &mut [u8],
    at: usize,
) -> usize
    requires fitted { Fitted image.now × ((edition_of image.now ≡ One) × (i < count_of image.now kind)) }
    requires kind_in_bounds { at + record_size (edition_after S.which) kind ≤ length buffer.old }
    ensures { Written buffer.old at (new_record S.which kind (record_at image.now kind i)) buffer.new result }
{
    S::put(kind, layout::record_part(image, kind, i), buffer, at)
}
