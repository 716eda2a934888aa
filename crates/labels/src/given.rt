// Reading a text, for the crates above, once the image is known to be accepted.
ghost use Rattle.std.specs.Prelude.{◌≡◌};
ghost use Rattle.image.specs.Check.{IsAccepted};
ghost use Rattle.labels.specs.Parse.{read_text, read_of};

use crate::answers::Reason;
use crate::label::Label;
use crate::parts::read_parts;
use crate::shape::shape_ok;
use header::limits::text_limit;

// The shape of the whole text comes before any of its names.
pub fn read_text(image: &[u8], text: &[u8]) -> Result<Label, Reason>
    requires { IsAccepted image.now }
    ensures { read_of result ≡ read_text image.now text.now }
{
    if !shape_ok(text, text_limit(image)) {
        return Err(Reason::Shape);
    }
    read_parts(image, text)
}
