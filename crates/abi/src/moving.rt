// The C functions of the moves, and of who holds COMPACCESS.
ghost use Rattle.std.specs.Prelude.{◌≡◌};
ghost use Rattle.abi.specs.Moves.{move_up_answer, compaccess_users_answer, clear_compaccess_answer};

use encoding::answers::amount_code;

// The edition 1 image as one of edition 2 at the front of `out`. Done: its length.
pub fn brawnesk_move_up(image: &[u8], out: &mut [u8]) -> u64
    ensures { (result, out.new) ≡ move_up_answer image.now out.old }
{
    amount_code(moves::move_up(image, out))
}

// The places of the users who hold COMPACCESS at the front of `out`, one byte each. Done: how many.
pub fn brawnesk_compaccess_users(image: &[u8], out: &mut [u8]) -> u64
    ensures { (result, out.new) ≡ compaccess_users_answer image.now out.old }
{
    amount_code(moves::compaccess_users(image, out))
}

// The edition 1 image without COMPACCESS at the front of `out`. Done: its length.
pub fn brawnesk_clear_compaccess(image: &[u8], out: &mut [u8]) -> u64
    ensures { (result, out.new) ≡ clear_compaccess_answer image.now out.old }
{
    amount_code(moves::clear_compaccess(image, out))
}
