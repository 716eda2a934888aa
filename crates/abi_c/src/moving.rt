// The exported C functions of the moves, and of who holds COMPACCESS.
ghost use Rattle.std.specs.Prelude.{◌≡◌};
ghost use Rattle.abi.specs.Moves.{move_up_answer, compaccess_users_answer, clear_compaccess_answer};

#[unsafe(no_mangle)]
pub extern "C" fn brawnesk_move_up(image: &[u8], out: &mut [u8]) -> u64
    ensures { (result, out.new) ≡ move_up_answer image.now out.old }
{
    abi::moving::brawnesk_move_up(image, out)
}

#[unsafe(no_mangle)]
pub extern "C" fn brawnesk_compaccess_users(image: &[u8], out: &mut [u8]) -> u64
    ensures { (result, out.new) ≡ compaccess_users_answer image.now out.old }
{
    abi::moving::brawnesk_compaccess_users(image, out)
}

#[unsafe(no_mangle)]
pub extern "C" fn brawnesk_clear_compaccess(image: &[u8], out: &mut [u8]) -> u64
    ensures { (result, out.new) ≡ clear_compaccess_answer image.now out.old }
{
    abi::moving::brawnesk_clear_compaccess(image, out)
}
