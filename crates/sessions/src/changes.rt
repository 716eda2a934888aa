// Label changes of a session that is accepted.
ghost use Rattle.std.specs.Prelude.{◌<◌, ◌≡◌, Err};
ghost use Rattle.header.specs.Layout.{users};
ghost use Rattle.header.specs.Limits.{Counted};
ghost use Rattle.hierarchy.specs.Below.{Tabled};
ghost use Rattle.image.specs.Check.{IsAccepted};
ghost use Rattle.labels.specs.Label.{marks_of};
ghost use Rattle.labels.specs.Parse.{refusal_of};
ghost use Rattle.access.specs.Rights.{rights_of};
ghost use Rattle.access.specs.NewLabels.{session_label_answer, row_label_answer};
ghost use Rattle.sessions.specs.Session.{session_of, session_rights};
ghost use Rattle.sessions.specs.Changes.{change_if, with_label, with_row_label, label_change, row_label_change, change_of};

use crate::session::Session;
use access::new_labels::{row_label_answer, session_label_answer};
use access::rights::{View, rights_at};
use hierarchy::table::Table;
use labels::given::read_text;
use labels::label::Label;
use refusals::Refusal;

// The session with the new label where the rules allow it.
fn put_label(session: Session, image: &[u8], table: &Table, new: Label) -> Result<Session, Refusal>
    requires { Counted image.now × (Tabled image.now table.now × (session.user < users image.now)) }
    ensures { change_of session result ≡ change_if (session_of session) (session_label_answer image.now session.user (marks_of new) (marks_of session.row)) (with_label (session_of session) (marks_of new)) }
{
    let user = session.user as usize;
    let view = rights_at(image, table, user, new);
    session_label_answer(image, table, user, new, view, session.row)?;
    Ok(Session {
        label: new,
        ..session
    })
}

pub fn change_label(
    session: Session,
    image: &[u8],
    table: &Table,
    text: &[u8],
) -> Result<Session, Refusal>
    requires { IsAccepted image.now × (Tabled image.now table.now × (session.user < users image.now)) }
    ensures { change_of session result ≡ label_change image.now (session_of session) text.now }
{
    put_label(session, image, table, read_text(image, text)?)
}

// The session with the new row label where the rules allow it.
fn put_row_label(session: Session, view: View, new: Label) -> Result<Session, Refusal>
    ensures { change_of session result ≡ change_if (session_of session) (row_label_answer (rights_of view) (marks_of new)) (with_row_label (session_of session) (marks_of new)) }
{
    row_label_answer(view, new)?;
    Ok(Session {
        row: new,
        ..session
    })
}

// The view is what the session gives its user.
pub fn change_row_label(
    session: Session,
    image: &[u8],
    view: View,
    text: &[u8],
) -> Result<Session, Refusal>
    requires { IsAccepted image.now × (rights_of view ≡ session_rights image.now (session_of session)) }
    ensures { change_of session result ≡ row_label_change image.now (session_of session) text.now }
{
    put_row_label(session, view, read_text(image, text)?)
}
