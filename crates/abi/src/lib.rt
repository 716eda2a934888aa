// The C functions. Each takes the bytes apart, makes the call and lays its answer down in one number.

#![tactic(auto)]

mod codes;
pub mod laying;
pub mod mapping;
pub mod moving;

ghost use Rattle.std.specs.Prelude.{◌≡◌};
ghost use Rattle.refusals.specs.Answers.{PlaceFits, refusal_given, code_of, answer_of, amount_given};
ghost use Rattle.abi.specs.Answers.{after_check, check_answer, name_span};
ghost use Rattle.abi.specs.Labels.{parse_answer, print_answer};
ghost use Rattle.abi.specs.Sessions.{open_answer, set_label_answer, set_row_label_answer, may_read_answer, may_write_answer};
ghost use Rattle.abi.specs.Tables.{read_answer, update_answer, masked_answer};
ghost use Rattle.abi.specs.TwoLabels.{dominates_answer, strictly_dominates_answer, merge_answer};

use encoding::answers::{amount_code, checked_code, refused, verdict_code};
use encoding::{bytes48, bytes104};
use image::lookup;
use refusals::Refusal;

// Is the image accepted? Done: 0.
pub fn brawnesk_check(image: &[u8]) -> u64
    ensures { result ≡ check_answer image.now }
{
    checked_code(image::check(image))
}

// Where the name of the component of that class and place stands. Done: its offset in the image + 65,536 × its length.
pub fn brawnesk_name(image: &[u8], class: u8, place: u8) -> u64
    ensures { result ≡ name_span image.now class place }
{
    match image::name_answer(image, class, place) {
        Ok(()) => {
            let offset = lookup::name_offset(image, class, place as usize);
            let length = lookup::name_length(image, class, place as usize);
            (offset + 65536 * length) as u64
        }
        Err(r) => refused(r),
    }
}

// The refusal of the image, and of an accepted one that refusal.
pub(crate) fn after_check(image: &[u8], refusal: Refusal) -> u64
    requires { PlaceFits (refusal_given refusal) }
    ensures { result ≡ answer_of (after_check image.now refusal) }
{
    match image::check(image) {
        Ok(()) => refused(refusal),
        Err(r) => refused(r),
    }
}

// The label that the text names, in 48 bytes. Done: 0.
pub fn brawnesk_parse(image: &[u8], text: &[u8], label: &mut [u8; 48]) -> u64
    ensures { (result, label.new) ≡ parse_answer image.now text.now label.old }
{
    match labels::parse(image, text) {
        Ok(read) => {
            *label = bytes48::label_bytes(read);
            0
        }
        Err(r) => refused(r),
    }
}

// The label's text at the front of the buffer. Done: its length.
pub fn brawnesk_print(image: &[u8], label: &[u8; 48], text: &mut [u8]) -> u64
    ensures { (result, text.new) ≡ print_answer image.now label.now text.old }
{
    amount_code(printing::print(image, bytes48::label_in(label), text))
}

// Opens a session for the user of that name. Done: 0.
pub fn brawnesk_open(image: &[u8], name: &[u8], session: &mut [u8; 104]) -> u64
    ensures { (result, session.new) ≡ open_answer image.now name.now session.old }
{
    match sessions::open(image, name) {
        Ok(opened) => {
            *session = bytes104::session_bytes(opened);
            0
        }
        Err(refusal) => refused(refusal),
    }
}

// Gives the session the label that the text names. Done: 0.
pub fn brawnesk_set_label(image: &[u8], session: &mut [u8; 104], text: &[u8]) -> u64
    ensures { (result, session.new) ≡ set_label_answer image.now session.old text.now }
{
    if !bytes104::one_user(session) {
        return after_check(image, Refusal::SessionRules);
    }
    let change = bytes104::session_in(session).set_label(image, text);
    bytes104::store(session, change)
}

// Gives the session the row label that the text names. Done: 0.
pub fn brawnesk_set_row_label(image: &[u8], session: &mut [u8; 104], text: &[u8]) -> u64
    ensures { (result, session.new) ≡ set_row_label_answer image.now session.old text.now }
{
    if !bytes104::one_user(session) {
        return after_check(image, Refusal::SessionRules);
    }
    let change = bytes104::session_in(session).set_row_label(image, text);
    bytes104::store(session, change)
}

// May the session read a row of that tag? Done: 1 yes, 0 no.
pub fn brawnesk_may_read(image: &[u8], session: &[u8; 104], tag: u32) -> u64
    ensures { result ≡ may_read_answer image.now session.now tag }
{
    if !bytes104::one_user(session) {
        return after_check(image, Refusal::SessionRules);
    }
    verdict_code(bytes104::session_in(session).may_read(image, tag))
}

// May the session write a row of that tag? Done: 1 yes, 0 no.
pub fn brawnesk_may_write(image: &[u8], session: &[u8; 104], tag: u32) -> u64
    ensures { result ≡ may_write_answer image.now session.now tag }
{
    if !bytes104::one_user(session) {
        return after_check(image, Refusal::SessionRules);
    }
    verdict_code(bytes104::session_in(session).may_write(image, tag))
}

// Copies the rows that the session may read to the front of `out`. Done: how many.
pub fn brawnesk_read(
    image: &[u8],
    session: &[u8; 104],
    table: &[u8],
    width: usize,
    out: &mut [u8],
) -> u64
    ensures { (result, out.new) ≡ read_answer image.now session.now table.now width out.old }
{
    if !bytes104::one_user(session) {
        return after_check(image, Refusal::SessionRules);
    }
    amount_code(rows::read(image, bytes104::session_in(session), table, width, out))
}

// Replaces the payload of the n-th row, from 0, among those that the session may read. Done: 0.
pub fn brawnesk_update(
    image: &[u8],
    session: &[u8; 104],
    table: &mut [u8],
    width: usize,
    n: usize,
    payload: &[u8],
) -> u64
    ensures { (result, table.new) ≡ update_answer image.now session.now table.old width n payload.now }
{
    if !bytes104::one_user(session) {
        return after_check(image, Refusal::SessionRules);
    }
    checked_code(rows::update(
        image,
        bytes104::session_in(session),
        table,
        width,
        n,
        payload,
    ))
}

// Is the payload of the row at that place handed out? Places count from 0 among all rows. Done: 1, the payload, at place × width + 4; 0,
// the mask, which is not looked at.
pub fn brawnesk_masked(
    image: &[u8],
    session: &[u8; 104],
    table: &[u8],
    width: usize,
    place: usize,
    _mask: &[u8],
) -> u64
    ensures { result ≡ masked_answer image.now session.now table.now width place }
{
    if !bytes104::one_user(session) {
        return after_check(image, Refusal::SessionRules);
    }
    verdict_code(rows::masked_verdict(image, bytes104::session_in(session), table, width, place))
}

// Does label 1 dominate label 2? 1 yes, 0 no.
pub fn brawnesk_dominates(image: &[u8], label1: &[u8; 48], label2: &[u8; 48]) -> u64
    ensures { result ≡ dominates_answer image.now label1.now label2.now }
{
    let first = bytes48::label_in(label1);
    let second = bytes48::label_in(label2);
    verdict_code(dominance::dominates(image, first, second))
}

// And the labels differ. 1 yes, 0 no.
pub fn brawnesk_strictly_dominates(image: &[u8], label1: &[u8; 48], label2: &[u8; 48]) -> u64
    ensures { result ≡ strictly_dominates_answer image.now label1.now label2.now }
{
    let first = bytes48::label_in(label1);
    let second = bytes48::label_in(label2);
    verdict_code(dominance::strictly_dominates(image, first, second))
}

// One label of two, by three letters. Done: 0.
pub fn brawnesk_merge(
    label1: &[u8; 48],
    label2: &[u8; 48],
    letters: &[u8],
    merged: &mut [u8; 48],
) -> u64
    ensures { (result, merged.new) ≡ merge_answer label1.now label2.now letters.now merged.old }
{
    let first = bytes48::label_in(label1);
    let second = bytes48::label_in(label2);
    match dominance::merge(first, second, letters) {
        Ok(label) => {
            *merged = bytes48::label_bytes(label);
            0
        }
        Err(r) => refused(r),
    }
}
