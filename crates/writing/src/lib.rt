// Images written from records, and taken apart into them: blocks, their heads, unused bytes and sums; the rules of what is lent.

#![tactic(auto)]

pub mod answers;
mod apart;
pub mod block;
mod checking;
mod counting;
mod groups;
pub mod laying;
mod lent;

ghost use Rattle.std.specs.Prelude.{◌≡◌};
ghost use Rattle.header.specs.declared.layout.Kind.TheVariants.{Component, Label, User};
ghost use Rattle.writing.specs.Calls.{write_of, records_given_of};

use answers::WriteRefusal;
use apart::records_given;
use checking::lent_check;
use counting::lent_counts;
use header::edition::edition_named;
use header::layout::Kind;
use header::profile::profile_named;
use laying::write_image;
use lent::LentRecords;
use refusals::Refusal;

// The image of that edition and profile with those component, label and user records, which are lent without blocks, at the front of the buffer.
// Refusals: 31; 32, 33 and 34 with the record's place in its slice; 35 with the lowest group; 13. The buffer is then as it was.
pub fn write(
    edition: u8,
    profile: u8,
    components: &[u8],
    labels: &[u8],
    users: &[u8],
    buffer: &mut [u8],
) -> Result<usize, WriteRefusal>
    ensures { (result, buffer.new) ≡ write_of edition profile components.now labels.now users.now buffer.old }
{
    let lent = LentRecords {
        components,
        labels,
        users,
    };
    lent_check(edition, profile, lent)?;
    let counts = lent_counts(edition_named(edition), profile_named(profile), components);
    Ok(write_image(counts, lent, buffer)?)
}

// The component records of an accepted image, without blocks, at the front of the buffer. Refusals: 1, 2, 31 to 35, 13; the buffer is then as it was.
pub fn component_records(image: &[u8], buffer: &mut [u8]) -> Result<usize, Refusal>
    ensures { (result, buffer.new) ≡ records_given_of Component image.now buffer.old }
{
    records_given(image, Kind::Component, buffer)
}

// The label records. Refusals as above.
pub fn label_records(image: &[u8], buffer: &mut [u8]) -> Result<usize, Refusal>
    ensures { (result, buffer.new) ≡ records_given_of Label image.now buffer.old }
{
    records_given(image, Kind::Label, buffer)
}

// The user records. Refusals as above.
pub fn user_records(image: &[u8], buffer: &mut [u8]) -> Result<usize, Refusal>
    ensures { (result, buffer.new) ≡ records_given_of User image.now buffer.old }
{
    records_given(image, Kind::User, buffer)
}
