// The text of a label, printed under a policy image.

#![tactic(auto)]

mod writing;

ghost use Rattle.std.specs.Prelude.{◌≡◌};
ghost use Rattle.labels.specs.Label.{marks_of};
ghost use Rattle.printing.specs.Print.{print_of};

use image::check;
use labels::label::Label;
use refusals::Refusal;

// Prints a label to the front of the buffer, and tells its length. Refusals: 1, 2, 31 to 35, 18, 13; a refusal leaves the buffer as it was.
pub fn print(image: &[u8], label: Label, buffer: &mut [u8]) -> Result<usize, Refusal>
    ensures { (result, buffer.new) ≡ print_of image.now (marks_of label) buffer.old }
{
    check(image)?;
    writing::print_accepted(image, label, buffer)
}
