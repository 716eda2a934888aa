// A table's rows under a session: reads, reads by a map, updates and masked reads. Every call checks the image, the session and the table's shape.

#![tactic(auto)]

mod by_slots;
mod copying;
mod mapped;
mod masking;
mod offsets;
mod readable;
mod reading;
mod run;
mod scan;
mod slots;
mod tags;
mod updating;

ghost use Rattle.std.specs.Prelude.{◌≡◌};
ghost use Rattle.sessions.specs.Session.{session_of};
ghost use Rattle.rows.specs.Table.{table_rule};
ghost use Rattle.rows.specs.Reading.{read_rows_of};
ghost use Rattle.rows.specs.Mapped.{read_mapped_of};
ghost use Rattle.rows.specs.Updating.{update_row_of};
ghost use Rattle.rows.specs.Masked.{masked_verdict_of, masked_part};
ghost use Rattle.rows.specs.Scan.{TableGives};

use access::rights::View;
use hierarchy::table;
use maps::given::is_map;
use refusals::Refusal;
use run::{row_offset, run_of};
use sessions::given::lent_rights;
use sessions::session::Session;

// A width is 5 to 512, and the table's length a multiple of it.
fn table_ok(table: &[u8], width: usize) -> bool
    ensures { result ≡ table_rule table.now width }
{
    if !((5 <= width) & (width <= 512)) {
        return false;
    }
    table.len() % width == 0
}

// What the session gives its user; or 1, 2, 31 to 35, 19, 12.
fn table_rights(image: &[u8], session: Session, table: &[u8], width: usize) -> Result<View, Refusal>
    ensures { TableGives image.now (session_of session) table.now width result }
{
    let mut parents = table::EMPTY;
    let view = lent_rights(image, &mut parents, session)?;
    if !table_ok(table, width) {
        return Err(Refusal::TableShape);
    }
    Ok(view)
}

// Copies the rows that the session may read to the front of the buffer, whole and in table order, and tells how many. Refusals: 1, 2, 31 to 35,
// 19, 12, 13; the buffer is then as it was.
pub fn read(
    image: &[u8],
    session: Session,
    table: &[u8],
    width: usize,
    buffer: &mut [u8],
) -> Result<usize, Refusal>
    ensures { (result, buffer.new) ≡ read_rows_of image.now (session_of session) table.now width buffer.old }
{
    let view = table_rights(image, session, table, width)?;
    reading::read_accepted(image, view, run_of(table, width), width, buffer)
}

// The same by a map of the session, which is judged before any row is looked at. Refusals: 1, 2, 31 to 35, 19, 12, 20, 13; the buffer is then as
// it was.
pub fn read_mapped(
    image: &[u8],
    session: Session,
    table: &[u8],
    width: usize,
    bits: &[u8],
    buffer: &mut [u8],
) -> Result<usize, Refusal>
    ensures { (result, buffer.new) ≡ read_mapped_of image.now (session_of session) table.now width bits.now buffer.old }
{
    let view = table_rights(image, session, table, width)?;
    if !is_map(image, view, bits) {
        return Err(Refusal::WrongMap);
    }
    reading::read_judged(image, view, bits, run_of(table, width), width, buffer)
}

// Replaces the payload of the n-th row, from 0, among those that the session may read. Refusals: 1, 2, 31 to 35, 19, 12, 16, 14, 15; the table is
// then as it was.
pub fn update(
    image: &[u8],
    session: Session,
    table: &mut [u8],
    width: usize,
    n: usize,
    payload: &[u8],
) -> Result<(), Refusal>
    ensures { (result, table.new) ≡ update_row_of image.now (session_of session) table.old width n payload.now }
{
    let view = table_rights(image, session, table, width)?;
    updating::update_accepted(image, view, table, width, n, payload)
}

// May the session read the row at that place, from 0, among all rows? It tells how `masked_read` ends. Refusals: 1, 2, 31 to 35, 19, 12, 14.
pub fn masked_verdict(
    image: &[u8],
    session: Session,
    table: &[u8],
    width: usize,
    place: usize,
) -> Result<bool, Refusal>
    ensures { result ≡ masked_verdict_of image.now (session_of session) table.now width place }
{
    let view = table_rights(image, session, table, width)?;
    masking::place_verdict(image, view, run_of(table, width), width, place)
}

// The payload of the row at that place if the session may read it, otherwise the mask; an empty part where `masked_verdict` refuses.
pub fn masked_read<'a>(
    image: &[u8],
    session: Session,
    table: &'a [u8],
    width: usize,
    place: usize,
    mask: &'a [u8],
) -> &'a [u8]
    ensures { (result.ref_ptr, result.now) ≡ masked_part image.now (session_of session) table.entry width place mask.entry }
{
    let Ok(readable) = masked_verdict(image, session, table, width, place) else {
        return &mask[0..0];
    };
    if !readable {
        return mask;
    }
    let at = row_offset(width, place);
    &table[at + 4..at + width]
}
