// The policy image: its check, and what may be asked of an accepted one.

#![tactic(auto)]

pub mod faults;
pub mod given;
pub mod inspect;
pub mod lookup;

ghost use Rattle.std.specs.Prelude.{◌≡◌};
ghost use Rattle.image.specs.Check.{check_of, ChecksTable};
ghost use Rattle.image.specs.Lookup.{name_answer, name_part};

use hierarchy::table;
use hierarchy::table::Table;
use refusals::Refusal;

// Is the image accepted? Refusals: 1, 2 with the lowest block, 31, 32 to 34 with block and record, 35 with the lowest group.
pub fn check(image: &[u8]) -> Result<(), Refusal>
    ensures { result ≡ check_of image.now }
{
    let mut groups = table::EMPTY;
    check_table(image, &mut groups)
}

// The same for a call that goes on to ask what lies below groups: it lends the table, which is filled where the image is accepted.
pub fn check_table(image: &[u8], table: &mut Table) -> Result<(), Refusal>
    ensures { ChecksTable image.now table.new result }
{
    inspect::first_fault(image, table)?;
    Ok(())
}

// How the look-up of a component's name by class and place ends. Refusals: 1, 2, 31 to 35, 18.
pub fn name_answer(image: &[u8], class: u8, place: u8) -> Result<(), Refusal>
    ensures { result ≡ name_answer image.now class place }
{
    check(image)?;
    if lookup::has_component(image, class, place as usize) {
        Ok(())
    } else {
        Err(Refusal::NoComponent)
    }
}

// The part of the image that holds the component's name; an empty part where `name_answer` refuses.
pub fn name<'a>(image: &'a [u8], class: u8, place: u8) -> &'a [u8]
    ensures { (result.ref_ptr, result.now) ≡ name_part image.entry class place }
{
    let Ok(()) = name_answer(image, class, place) else {
        return &image[0..0];
    };
    let at = lookup::name_offset(image, class, place as usize);
    let end = at + lookup::name_length(image, class, place as usize);
    &image[at..end]
}
