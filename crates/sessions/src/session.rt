// A session: a user's place, a session label and a row label.
use labels::label::Label;

#[derive(Clone, Copy)]
pub struct Session {
    pub user: u8,
    pub label: Label,
    pub row: Label,
}
