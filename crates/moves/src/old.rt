// The check of calls that are lent an image of edition 1.
ghost use Rattle.std.specs.Prelude.{◌≡◌};
ghost use Rattle.moves.specs.Moving.{framed_two, old_check_of};

use blocks::frame::{first_bad_block, length_ok};
use header::edition::{Edition, edition_of};
use image::check;
use refusals::Refusal;

// Is it an image of edition 2 that neither 1 nor 2 refuses? The blocks of an image of edition 1 are not read for this.
fn framed_two(image: &[u8]) -> bool
    ensures { result ≡ framed_two image.now }
{
    if !length_ok(image) {
        return false;
    }
    match edition_of(image) {
        Edition::One => false,
        Edition::Two => first_bad_block(image) == image.len() / 512,
    }
}

// Is it an accepted image of edition 1? Refusals: 1, 2, 31 for edition 2, then 31 to 35.
pub(crate) fn old_check(image: &[u8]) -> Result<(), Refusal>
    ensures { result ≡ old_check_of image.now }
{
    if framed_two(image) {
        return Err(Refusal::ImageLayout);
    }
    check(image)
}
