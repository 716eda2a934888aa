// The C functions that write an image and take one apart.
ghost use Rattle.std.specs.Prelude.{◌≡◌};
ghost use Rattle.header.specs.declared.layout.Kind.TheVariants.{Component, Label, User};
ghost use Rattle.abi.specs.Writing.{write_answer, records_answer};

use crate::codes::write_code;
use encoding::answers::amount_code;

// The image of that edition and profile with those records at the front of `out`. Done: its length.
pub fn brawnesk_write(
    edition: u8,
    profile: u8,
    components: &[u8],
    labels: &[u8],
    users: &[u8],
    out: &mut [u8],
) -> u64
    ensures { (result, out.new) ≡ write_answer edition profile components.now labels.now users.now out.old }
{
    write_code(writing::write(edition, profile, components, labels, users, out))
}

// The component records of the image at the front of `out`, without blocks. Done: their length.
pub fn brawnesk_component_records(image: &[u8], out: &mut [u8]) -> u64
    ensures { (result, out.new) ≡ records_answer Component image.now out.old }
{
    amount_code(writing::component_records(image, out))
}

// The label records of the image.
pub fn brawnesk_label_records(image: &[u8], out: &mut [u8]) -> u64
    ensures { (result, out.new) ≡ records_answer Label image.now out.old }
{
    amount_code(writing::label_records(image, out))
}

// The user records of the image.
pub fn brawnesk_user_records(image: &[u8], out: &mut [u8]) -> u64
    ensures { (result, out.new) ≡ records_answer User image.now out.old }
{
    amount_code(writing::user_records(image, out))
}
