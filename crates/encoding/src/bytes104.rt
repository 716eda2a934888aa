// A session in 104 bytes.
ghost use Rattle.std.specs.Prelude.{◌≡◌, length};
ghost use Rattle.refusals.specs.Answers.{PlaceFits};
ghost use Rattle.sessions.specs.Session.{session_of};
ghost use Rattle.encoding.specs.Sessions.{session_bytes, session_in, one_user, changed_given, stored};

use crate::answers::refused;
use crate::bytes48::{label_bytes, label_in};
use refusals::Refusal;
use sessions::session::Session;

// Each byte of the session; the unused ones are zero. They read back as the session.
pub fn session_bytes(session: Session) -> [u8; 104]
    ensures { (result ≡ session_bytes (session_of session)) × (session_in result ≡ session_of session) }
{
    let mut b = [0u8; 104];
    b[0] = session.user;
    b[1] = session.user;
    b[8..56].copy_from_slice(&label_bytes(session.label));
    b[56..104].copy_from_slice(&label_bytes(session.row));
    b
}

// Is the signed-on user the user?
pub fn one_user(bytes: &[u8]) -> bool
    requires { length bytes.now ≡ 104 }
    ensures { result ≡ one_user bytes.now }
{
    bytes[1] == bytes[0]
}

// The session that the bytes hold.
pub fn session_in(bytes: &[u8]) -> Session
    requires { length bytes.now ≡ 104 }
    ensures { session_of result ≡ session_in bytes.now }
{
    Session {
        user: bytes[0],
        label: label_in(&bytes[8..56]),
        row: label_in(&bytes[56..104]),
    }
}

// Lays a changed session down; a refusal leaves the bytes as they were.
pub fn store(session: &mut [u8; 104], changed: Result<Session, Refusal>) -> u64
    requires { PlaceFits (changed_given changed) }
    ensures { (result, session.new) ≡ stored changed session.old }
{
    match changed {
        Ok(new) => {
            *session = session_bytes(new);
            0
        }
        Err(r) => refused(r),
    }
}
