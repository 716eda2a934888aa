// The shape of label text, read byte by byte.
ghost use Rattle.std.specs.Prelude.{◌≡◌};
ghost use Rattle.labels.specs.Text.{shape_rule};
ghost use Rattle.labels.specs.States.{after_name_byte, after_comma, after_colon, after_byte, after_all, ends_well};
ghost use Rattle.labels.specs.declared.shape.State.TheVariants.{Start};

use crate::scan::{InName, first_stop, text_byte};

// How far a reading has come. A name begins at Start, Lists, FirstNext and Second; Level, First and InSecond stand inside one.
#[derive(Clone, Copy)]
pub enum State {
    Start,
    Level,
    // After the first colon: the first list may be empty here if a second one follows.
    Lists,
    First,
    // After a comma of the first list.
    FirstNext,
    // After the second colon, or a comma of the second list.
    Second,
    InSecond,
    // No text that begins so has the shape.
    Wrong,
}

fn after_name_byte(state: State) -> State
    ensures { result ≡ after_name_byte state }
{
    match state {
        State::Start | State::Level => State::Level,
        State::Lists | State::First | State::FirstNext => State::First,
        State::Second | State::InSecond => State::InSecond,
        State::Wrong => State::Wrong,
    }
}

// A comma ends a name of a list, and another has to follow.
fn after_comma(state: State) -> State
    ensures { result ≡ after_comma state }
{
    match state {
        State::Start => State::Wrong,
        State::Level => State::Wrong,
        State::Lists => State::Wrong,
        State::First => State::FirstNext,
        State::FirstNext => State::Wrong,
        State::Second => State::Wrong,
        State::InSecond => State::Second,
        State::Wrong => State::Wrong,
    }
}

// A colon ends the level, the first list, or an empty first list.
fn after_colon(state: State) -> State
    ensures { result ≡ after_colon state }
{
    match state {
        State::Start => State::Wrong,
        State::Level => State::Lists,
        State::Lists => State::Second,
        State::First => State::Second,
        State::FirstNext => State::Wrong,
        State::Second => State::Wrong,
        State::InSecond => State::Wrong,
        State::Wrong => State::Wrong,
    }
}

fn after_byte(state: State, x: u8) -> State
    ensures { result ≡ after_byte state x }
{
    if text_byte(x) {
        return after_name_byte(state);
    }
    if x == b',' {
        return after_comma(state);
    }
    if x == b':' {
        return after_colon(state);
    }
    State::Wrong
}

// A text may end inside a name only.
fn ends_well(state: State) -> bool
    ensures { result ≡ ends_well state }
{
    matches!(state, State::Level | State::First | State::InSecond)
}

// A name's later bytes leave the state as its first one does, so they are passed over. The place moves by what is found: no range has these places.
fn after_all(text: &[u8]) -> State
    ensures { result ≡ after_all Start text.now }
{
    let mut state = State::Start;
    let mut i = 0;
    while i < text.len() {
        let x = text[i];
        if text_byte(x) {
            state = after_name_byte(state);
            i = first_stop(InName, text, i + 1);
        } else {
            state = after_byte(state, x);
            i += 1;
        }
    }
    state
}

// Does the text have the shape of a label's text, and no more bytes than the limit?
pub fn shape_ok(text: &[u8], limit: usize) -> bool
    ensures { result ≡ shape_rule limit text.now }
{
    if limit < text.len() {
        return false;
    }
    ends_well(after_all(text))
}
