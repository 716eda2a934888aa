// Labels, and their text read under a policy image.

#![tactic(auto)]

pub mod answers;
pub mod given;
pub mod group_test;
mod hints;
pub mod label;
mod lists;
mod names;
mod parts;
mod scan;
mod shape;

ghost use Rattle.std.specs.Prelude.{◌≡◌};
ghost use Rattle.labels.specs.Parse.{parsing_of, parse_of};

use image::check;
use label::Label;
use refusals::Refusal;

// The label that the text names. Refusals: 1, 2, 31 to 35 of the image; 5; then 6 or 7 with the offset of the leftmost such name.
pub fn parse(image: &[u8], text: &[u8]) -> Result<Label, Refusal>
    ensures { parsing_of result ≡ parse_of image.now text.now }
{
    // `match` and no `?`: so the must-fail edit of a refused image is refused for the answer alone, and not since `map_err` has no proof.
    match check(image) {
        Ok(()) => Ok(given::read_text(image, text)?),
        Err(refusal) => Err(refusal),
    }
}
