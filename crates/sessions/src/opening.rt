// Opening a session for a user of an accepted image.
ghost use Rattle.std.specs.Prelude.{◌<◌, ◌≡◌};
ghost use Rattle.header.specs.Layout.{users};
ghost use Rattle.header.specs.Limits.{Counted};
ghost use Rattle.sessions.specs.Session.{session_of};
ghost use Rattle.sessions.specs.Opening.{default_session, open_accepted, opening_of};

use crate::session::Session;
use header::edition::edition_of;
use header::layout;
use header::layout::Kind;
use image::given::user_of_name;
use labels::label::Label;
use records::users;
use refusals::Refusal;

pub fn default_session(image: &[u8], u: usize) -> Session
    requires { Counted image.now × (u < users image.now) }
    ensures { session_of result ≡ default_session image.now u }
{
    let rec = layout::record_part(image, Kind::User, u);
    let levels = users::levels_in(rec);
    let compartments = users::compartments_in(rec);
    let groups = users::sets_in(edition_of(image), rec);
    Session {
        user: u as u8,
        label: Label {
            level: levels.default,
            compartments: compartments.default,
            groups: groups.default,
        },
        row: Label {
            level: levels.row,
            compartments: compartments.row,
            groups: groups.row,
        },
    }
}

// 4 where no user has that name.
pub fn open_accepted(image: &[u8], name: &[u8]) -> Result<Session, Refusal>
    requires { Counted image.now }
    ensures { opening_of result ≡ open_accepted image.now name.now }
{
    let u = user_of_name(image, name);
    if u >= layout::users(image) {
        return Err(Refusal::NoUser);
    }
    Ok(default_session(image, u))
}
