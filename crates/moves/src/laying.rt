// The image that a move writes: header, components, labels, users.
ghost use Rattle.std.specs.Prelude.{◌≤◌, ◌≡◌, length};
ghost use Rattle.buffers.specs.Pasting.{Written};
ghost use Rattle.header.specs.declared.edition.Edition.TheVariants.{One};
ghost use Rattle.header.specs.Layout.{edition_of, groups, Fitted};
ghost use Rattle.header.specs.Limits.{Counted};
ghost use Rattle.moves.specs.Moved.{new_image};
ghost use Rattle.moves.specs.Parts.{new_header};
ghost use Rattle.buffers.specs.Filling.{written_to};

use crate::packing::{blocks_for, move_kind};
use crate::target::Step;
use header::layout;
use header::layout::Kind;
use header::profile::profile_of;
use refusals::Refusal;
use writing::block::put_header;
use writing::laying::length_for;

// How many bytes the new image has: the header's block, and those of the three kinds.
pub(crate) fn new_length<S: Step>(image: &[u8]) -> usize
    requires { Fitted image.now × (edition_of image.now ≡ One) }
    ensures { result ≡ length (new_image S.which image.now) }
{
    let components = layout::components(image);
    let labels = layout::labels(image);
    let users = layout::users(image);
    length_for(S::edition(), components, labels, users)
}

// Writes the header: the profile and the counts as they were, under the new edition.
fn put_counts<S: Step>(image: &[u8], buffer: &mut [u8]) -> usize
    requires { (512 ≤ length image.now) × ((groups image.now ≤ 64) × (512 ≤ length buffer.old)) }
    ensures { Written buffer.old 0 (new_header S.which image.now) buffer.new result }
{
    let levels = layout::levels(image) as u8;
    let compartments = layout::compartments(image) as u8;
    let groups = layout::groups(image);
    let users = layout::users(image);
    let labels = layout::labels(image);
    put_header(
        S::edition(),
        profile_of(image),
        levels,
        compartments,
        groups,
        users,
        labels,
        buffer,
        0,
    )
}

// Writes the new image to the front of the buffer, and tells its length.
pub(crate) fn put_image<S: Step>(image: &[u8], buffer: &mut [u8]) -> usize
    requires counted { Counted image.now × (edition_of image.now ≡ One) }
    requires image_in_bounds { length (new_image S.which image.now) ≤ length buffer.old }
    ensures { Written buffer.old 0 (new_image S.which image.now) buffer.new result }
{
    let label_place = 1 + blocks_for::<S>(image, Kind::Component);
    let user_place = label_place + blocks_for::<S>(image, Kind::Label);
    let head = put_counts::<S>(image, buffer);
    let components = move_kind::<S>(image, Kind::Component, 1, buffer, head);
    let labels = move_kind::<S>(image, Kind::Label, label_place, buffer, components);
    move_kind::<S>(image, Kind::User, user_place, buffer, labels)
}

// Refusal: 13.
pub(crate) fn write_image<S: Step>(image: &[u8], buffer: &mut [u8]) -> Result<usize, Refusal>
    requires { Counted image.now × (edition_of image.now ≡ One) }
    ensures { (result, buffer.new) ≡ written_to buffer.old (new_image S.which image.now) }
{
    if buffer.len() < new_length::<S>(image) {
        return Err(Refusal::Room);
    }
    let length = put_image::<S>(image, buffer);
    Ok(length)
}
