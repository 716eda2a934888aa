// The move up of an accepted image of edition 1.
ghost use Rattle.std.specs.Prelude.{◌≤◌, ◌≡◌, length};
ghost use Rattle.header.specs.declared.edition.Edition.TheVariants.{One};
ghost use Rattle.header.specs.Layout.{edition_of};
ghost use Rattle.header.specs.Limits.{Counted};
ghost use Rattle.moves.specs.Moving.{move_limits_rule, move_accepted};

use crate::holders::holder_count;
use crate::laying::write_image;
use crate::widening::Widening;
use header::edition::Edition;
use header::layout;
use header::limits::limits_in;
use refusals::Refusal;

// Edition 2 has room for the labels and the users.
fn limits_ok(image: &[u8]) -> bool
    requires { 512 ≤ length image.now }
    ensures { result ≡ move_limits_rule image.now }
{
    let limits = limits_in(Edition::Two);
    (layout::labels(image) <= limits.labels) & (layout::users(image) <= limits.users)
}

// Refusals: 37, 36, 13.
pub(crate) fn move_accepted(image: &[u8], buffer: &mut [u8]) -> Result<usize, Refusal>
    requires { Counted image.now × (edition_of image.now ≡ One) }
    ensures { (result, buffer.new) ≡ move_accepted image.now buffer.old }
{
    if !limits_ok(image) {
        return Err(Refusal::MoveLimits);
    }
    let count = holder_count(image);
    if count != 0 {
        return Err(Refusal::CompaccessHolders(count));
    }
    write_image::<Widening>(image, buffer)
}
