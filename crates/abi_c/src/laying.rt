// The exported C functions that write an image and take one apart.
ghost use Rattle.std.specs.Prelude.{◌≡◌};
ghost use Rattle.header.specs.declared.layout.Kind.TheVariants.{Component, Label, User};
ghost use Rattle.abi.specs.Writing.{write_answer, records_answer};

#[unsafe(no_mangle)]
pub extern "C" fn brawnesk_write(
    edition: u8,
    profile: u8,
    components: &[u8],
    labels: &[u8],
    users: &[u8],
    out: &mut [u8],
) -> u64
    ensures { (result, out.new) ≡ write_answer edition profile components.now labels.now users.now out.old }
{
    abi::laying::brawnesk_write(edition, profile, components, labels, users, out)
}

#[unsafe(no_mangle)]
pub extern "C" fn brawnesk_component_records(image: &[u8], out: &mut [u8]) -> u64
    ensures { (result, out.new) ≡ records_answer Component image.now out.old }
{
    abi::laying::brawnesk_component_records(image, out)
}

#[unsafe(no_mangle)]
pub extern "C" fn brawnesk_label_records(image: &[u8], out: &mut [u8]) -> u64
    ensures { (result, out.new) ≡ records_answer Label image.now out.old }
{
    abi::laying::brawnesk_label_records(image, out)
}

#[unsafe(no_mangle)]
pub extern "C" fn brawnesk_user_records(image: &[u8], out: &mut [u8]) -> u64
    ensures { (result, out.new) ≡ records_answer User image.now out.old }
{
    abi::laying::brawnesk_user_records(image, out)
}
