// What a session gives its user. For a lent one it is found once for a call, after the image's check and the session's rules.
ghost use Rattle.std.specs.Prelude.{◌<◌, ◌≡◌};
ghost use Rattle.header.specs.Layout.{users};
ghost use Rattle.header.specs.Limits.{Counted};
ghost use Rattle.hierarchy.specs.Below.{Tabled};
ghost use Rattle.image.specs.Check.{IsAccepted};
ghost use Rattle.access.specs.Rights.{rights_of};
ghost use Rattle.sessions.specs.Session.{session_of, session_rights};
ghost use Rattle.sessions.specs.Opening.{default_session};
ghost use Rattle.sessions.specs.Lent.{LentGives};

use crate::opening::default_session;
use crate::session::Session;
use access::new_labels::{row_label_answer, session_label_answer};
use access::rights::{View, rights_at};
use header::layout;
use hierarchy::table::Table;
use image::check_table;
use refusals::Refusal;

// 19 unless the user's place exists and both labels meet their rules.
fn lent_accepted(image: &[u8], table: &Table, session: Session) -> Result<View, Refusal>
    requires { IsAccepted image.now × Tabled image.now table.now }
    ensures { LentGives image.now table.now (session_of session) result }
{
    let user = session.user as usize;
    if user >= layout::users(image) {
        return Err(Refusal::SessionRules);
    }
    let view = rights_at(image, table, user, session.label);
    let Ok(()) = session_label_answer(image, table, user, session.label, view, session.row) else {
        return Err(Refusal::SessionRules);
    };
    let Ok(()) = row_label_answer(view, session.row) else {
        return Err(Refusal::SessionRules);
    };
    Ok(view)
}

// The session's rights, and the table of groups that the check filled and they were found by; the table is the caller's scratch room.
// Refusals: 1, 2, 31 to 35, 19.
pub fn lent_rights(image: &[u8], table: &mut Table, session: Session) -> Result<View, Refusal>
    ensures { LentGives image.now table.new (session_of session) result }
{
    check_table(image, table)?;
    lent_accepted(image, table, session)
}

// What the session that opens for the user at place u gives, where the image is known to be accepted.
pub fn opened_rights(image: &[u8], table: &Table, u: usize) -> View
    requires { Counted image.now × (Tabled image.now table.now × (u < users image.now)) }
    ensures { rights_of result ≡ session_rights image.now (default_session image.now u) }
{
    rights_at(image, table, u, default_session(image, u).label)
}
