// Reading a table's rows by slots: a row is handed out if its tag is held. These functions have no rights, and so cannot ask a verdict.
ghost use Rattle.std.specs.Prelude.{◌≡◌, length, ◌≤◌};
ghost use Rattle.buffers.specs.Pasting.{Written};
ghost use Rattle.rows.specs.Run.{IsRun, kept, run_rows};
ghost use Rattle.rows.specs.Reading.{handed_out};
ghost use Rattle.rows.specs.Scan.{kept_bytes};
ghost use Rattle.rows.specs.Slots.{row_held};

use crate::copying::put_row;
use crate::scan::{RowTest, kept_fits, read_kept};
use crate::slots::{Slots, has};
use fields::numbers::{number4, number8};
use refusals::Refusal;

// The rows whose tags are held.
#[derive(Clone, Copy)]
pub struct Held<'a> {
    pub slots: &'a Slots,
}

impl RowTest for Held<'_> {
    ghost passes = { λ it row. row_held it.slots.now row };

    fn passes(&self, row: &[u8]) -> bool {
        has(self.slots, number4(row, 0))
    }
}

// Writes these rows to the front of the buffer and tells where they end, for rows of 8 bytes or more: the first 8, with the tag, are read once.
fn copy_wide(slots: &Slots, run: &[u8], width: usize, buffer: &mut [u8]) -> usize
    requires run { IsRun run.now width × (8 ≤ width) }
    requires width_in_bounds { length (kept_bytes (row_held slots.now) run.now width) ≤ length buffer.old }
    ensures { Written buffer.old 0 (kept_bytes (row_held slots.now) run.now width) buffer.new result }
{
    let mut to = 0;
    for row in run.chunks_exact(width) {
        let first = number8(row, 0);
        if has(slots, (first % 4294967296) as u32) {
            put_row(row, first, buffer, to);
            to += width;
        }
    }
    to
}

// 13 where they are longer than the buffer: then no byte is written.
pub fn read_held(
    slots: &Slots,
    run: &[u8],
    width: usize,
    buffer: &mut [u8],
) -> Result<usize, Refusal>
    requires { IsRun run.now width }
    ensures { (result, buffer.new) ≡ handed_out (kept (row_held slots.now) (run_rows run.now width)) buffer.old }
{
    let held = Held { slots };
    if width < 8 {
        return read_kept(&held, run, width, buffer);
    }
    if !kept_fits(&held, run, width, buffer.len()) {
        return Err(Refusal::Room);
    }
    let end = copy_wide(slots, run, width, buffer);
    Ok(end / width)
}
