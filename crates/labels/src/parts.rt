// The parts of a label's text between its colons: the level, then compartments, then groups. A name's offset counts from the
// text's start, so each list is read in the text up to the list's end.
ghost use Rattle.std.specs.Prelude.{◌+◌, ◌≤◌, ◌≡◌, length};
ghost use Rattle.image.specs.Check.{IsAccepted};
ghost use Rattle.labels.specs.Text.{colon, split};
ghost use Rattle.labels.specs.Parse.{groups_after, read_sets, read_parts, read_of};
ghost use Rattle.labels.specs.Lists.{after_mark};

use crate::answers::Reason;
use crate::label::Label;
use crate::lists::{mark_from, read_list};
use crate::names::find_by;
use sets::groups::Groups;

// The groups, where the compartments end at `end`.
fn read_groups(
    image: &[u8],
    text: &[u8],
    level: u8,
    compartments: u64,
    end: usize,
) -> Result<Label, Reason>
    requires { IsAccepted image.now × (end ≤ length text.now) }
    ensures { read_of result ≡ groups_after image.now level compartments (end + 1) (after_mark colon text.now end) }
{
    if text.len() <= end {
        return Ok(Label {
            level,
            compartments,
            groups: Groups::none(),
        });
    }
    let at = end + 1;
    let stop = mark_from(text, at, b':');
    let groups = read_list(image, 3, &text[0..stop], at)?;
    Ok(Label {
        level,
        compartments,
        groups,
    })
}

// Compartments and groups, where the level ends at `end`.
fn read_sets(image: &[u8], text: &[u8], level: u8, end: usize) -> Result<Label, Reason>
    requires { IsAccepted image.now × (end ≤ length text.now) }
    ensures { read_of result ≡ read_sets image.now level (end + 1) (after_mark colon text.now end) }
{
    if text.len() <= end {
        return Ok(Label {
            level,
            compartments: 0,
            groups: Groups::none(),
        });
    }
    let at = end + 1;
    let stop = mark_from(text, at, b':');
    let compartments = read_list(image, 2, &text[0..stop], at)?;
    read_groups(image, text, level, compartments.word(0), stop)
}

// The level counts as a name, at offset 0. It is looked up as the names of lists are; for one name no hints are written down.
pub fn read_parts(image: &[u8], text: &[u8]) -> Result<Label, Reason>
    requires { IsAccepted image.now }
    ensures { read_of result ≡ read_parts image.now (split colon text.now) }
{
    let hints = [0u8; 1024];
    let end = mark_from(text, 0, b':');
    let Some(level) = find_by(image, 1, &hints, &text[0..end]) else {
        return Err(Reason::Unknown(0));
    };
    read_sets(image, text, level as u8, end)
}
