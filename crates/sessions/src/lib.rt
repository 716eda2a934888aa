// Sessions: opening, label changes, and verdicts on a row's tag. Every call checks the image that it is lent.

#![tactic(auto)]

mod changes;
pub mod given;
mod opening;
pub mod session;

ghost use Rattle.std.specs.Prelude.{◌≡◌};
ghost use Rattle.sessions.specs.Session.{session_of};
ghost use Rattle.sessions.specs.Opening.{open_of, opening_of};
ghost use Rattle.sessions.specs.Changes.{set_label_of, set_row_label_of, change_of};
ghost use Rattle.sessions.specs.Asking.{may_read_of, may_write_of};

use access::verdicts;
use changes::{change_label, change_row_label};
use given::lent_rights;
use hierarchy::table;
use image::check;
use refusals::Refusal;
use session::Session;

// The session of the user of that name, with the default label and the default row label. Refusals: 1, 2, 31 to 35, 4.
pub fn open(image: &[u8], name: &[u8]) -> Result<Session, Refusal>
    ensures { opening_of result ≡ open_of image.now name.now }
{
    check(image)?;
    opening::open_accepted(image, name)
}

impl Session {
    // The session with the label that the text names as its session label. Refusals: 1, 2, 31 to 35, 19, 5, the leftmost name's 6 or
    // 7, 8, 9, 10, 11; the session is then as it was.
    pub fn set_label(self, image: &[u8], text: &[u8]) -> Result<Session, Refusal>
        ensures { change_of self result ≡ set_label_of image.now (session_of self) text.now }
    {
        let mut table = table::EMPTY;
        lent_rights(image, &mut table, self)?;
        change_label(self, image, &table, text)
    }

    // The session with the label that the text names as its row label. Refusals: as of `set_label`, but for 11.
    pub fn set_row_label(self, image: &[u8], text: &[u8]) -> Result<Session, Refusal>
        ensures { change_of self result ≡ set_row_label_of image.now (session_of self) text.now }
    {
        let mut table = table::EMPTY;
        let view = lent_rights(image, &mut table, self)?;
        change_row_label(self, image, view, text)
    }

    // May the session read a row of that tag? Refusals: 1, 2, 31 to 35, 19.
    pub fn may_read(self, image: &[u8], tag: u32) -> Result<bool, Refusal>
        ensures { result ≡ may_read_of image.now (session_of self) tag }
    {
        let mut table = table::EMPTY;
        let view = lent_rights(image, &mut table, self)?;
        Ok(verdicts::may_read(image, view, tag))
    }

    // May the session write a row of that tag? Refusals: 1, 2, 31 to 35, 19.
    pub fn may_write(self, image: &[u8], tag: u32) -> Result<bool, Refusal>
        ensures { result ≡ may_write_of image.now (session_of self) tag }
    {
        let mut table = table::EMPTY;
        let rights = lent_rights(image, &mut table, self)?;
        Ok(verdicts::may_write(image, rights, tag))
    }
}
