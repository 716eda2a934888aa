// Images moved from edition to edition, and users who hold COMPACCESS listed and cleared of it.

#![tactic(auto)]

mod clearing;
mod holders;
mod laying;
mod old;
mod packing;
mod record;
mod target;
mod up;
mod widening;

ghost use Rattle.std.specs.Prelude.{◌≡◌};
ghost use Rattle.moves.specs.Moving.{move_up_of, compaccess_users_of, clear_compaccess_of};

use clearing::Clearing;
use holders::list_accepted;
use laying::write_image;
use old::old_check;
use refusals::Refusal;
use up::move_accepted;

// An accepted image of edition 1, written in edition 2's layouts to the front of the buffer. Refusals: 1, 2, 31 for edition 2, 31 to
// 35, 37, 36 where users hold COMPACCESS, 13; the buffer is then as it was.
pub fn move_up(image: &[u8], buffer: &mut [u8]) -> Result<usize, Refusal>
    ensures { (result, buffer.new) ≡ move_up_of image.now buffer.old }
{
    old_check(image)?;
    move_accepted(image, buffer)
}

// The places of the users who hold COMPACCESS, in order, one byte each, to the front of the buffer. Refusals: 1, 2, 31 for edition 2, 31 to
// 35, 13; the buffer is then as it was.
pub fn compaccess_users(image: &[u8], buffer: &mut [u8]) -> Result<usize, Refusal>
    ensures { (result, buffer.new) ≡ compaccess_users_of image.now buffer.old }
{
    old_check(image)?;
    list_accepted(image, buffer)
}

// An accepted image of edition 1 without COMPACCESS, written to the front of the buffer. Refusals as above.
pub fn clear_compaccess(image: &[u8], buffer: &mut [u8]) -> Result<usize, Refusal>
    ensures { (result, buffer.new) ≡ clear_compaccess_of image.now buffer.old }
{
    old_check(image)?;
    write_image::<Clearing>(image, buffer)
}
