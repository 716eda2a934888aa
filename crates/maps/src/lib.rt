// Maps of sessions: one bit for each label record, made for a session, and judged if made elsewhere. Every call checks the image and the
// session.

#![tactic(auto)]

pub mod given;
mod judging;
mod making;
mod whole;
mod words;

ghost use Rattle.std.specs.Prelude.{◌≡◌};
ghost use Rattle.sessions.specs.Session.{session_of};
ghost use Rattle.maps.specs.Calls.{make_map_of, judge_map_of};

use given::{is_map, write_map};
use hierarchy::table;
use refusals::Refusal;
use sessions::given::lent_rights;
use sessions::session::Session;

// The map for the image and session, at the front of the buffer. Refusals: 1, 2, 31 to 35, 19, 13; the buffer is then as it was.
pub fn make_map(image: &[u8], session: Session, buffer: &mut [u8]) -> Result<usize, Refusal>
    ensures { (result, buffer.new) ≡ make_map_of image.now (session_of session) buffer.old }
{
    let mut parents = table::EMPTY;
    let view = lent_rights(image, &mut parents, session)?;
    write_map(image, view, buffer)
}

// Is that the map for the image and session? Refusals: 1, 2, 31 to 35, 19, 20 where it is not.
pub fn judge_map(image: &[u8], session: Session, bits: &[u8]) -> Result<(), Refusal>
    ensures { result ≡ judge_map_of image.now (session_of session) bits.now }
{
    let mut parents = table::EMPTY;
    let view = lent_rights(image, &mut parents, session)?;
    if !is_map(image, view, bits) {
        return Err(Refusal::WrongMap);
    }
    Ok(())
}
