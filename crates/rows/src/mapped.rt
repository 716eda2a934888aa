// Reading a table's rows by a map. Of many rows the tags that are handed out are put into slots once, and then a row's tag alone decides; of few each tag is
// looked up. These functions have no rights, and so cannot ask a verdict.
ghost use Rattle.std.specs.Prelude.{◌≡◌, false};
ghost use Rattle.rows.specs.Run.{IsRun, kept, run_rows};
ghost use Rattle.rows.specs.Mapped.{row_mapped};
ghost use Rattle.rows.specs.Reading.{handed_out};
ghost use Rattle.rows.specs.Scan.{Mapping};

use crate::by_slots::read_held;
use crate::scan::{RowTest, read_kept};
use crate::slots::COUNT;
use crate::tags::fill;
use fields::numbers::number4;
use header::layout;
use image::given::label_of_tag;
use maps::given::bit_of;
use refusals::Refusal;

// The rows that bytes hand out: the bit of the label record that carries the row's tag decides; where none does, `unknown`: are rows of unknown tags
// handed out?
#[derive(Clone, Copy)]
pub struct Mapped<'a> {
    pub image: &'a [u8],
    pub bits: &'a [u8],
    pub unknown: bool,
    pub ghost mapping: { Mapping image.now bits.now },
}

impl RowTest for Mapped<'_> {
    ghost passes = { λ it row. row_mapped it.image.now it.bits.now it.unknown row };

    fn passes(&self, row: &[u8]) -> bool {
        let p = label_of_tag(self.image, number4(row, 0));
        if p < layout::labels(self.image) {
            return bit_of(self.bits, p);
        }
        self.unknown
    }
}

// By slots, which hold no unknown tags. Where a tag finds no slot, each row is asked.
fn many_by_map(
    mapped: &Mapped,
    run: &[u8],
    width: usize,
    buffer: &mut [u8],
) -> Result<usize, Refusal>
    requires run { IsRun run.now width }
    requires unknown { mapped.now.unknown ≡ false }
    ensures { (result, buffer.new) ≡ handed_out (kept (row_mapped mapped.now.image.now mapped.now.bits.now false) (run_rows run.now width)) buffer.old }
{
    let mut slots = [0u32; COUNT];
    if !fill(mapped.image, mapped.bits, &mut slots) {
        return read_kept(mapped, run, width, buffer);
    }
    read_held(&slots, run, width, buffer)
}

// 13 where they are longer than the buffer: then no byte is written. Finding the tags pays from some hundreds of rows on: for a few rows it would cost
// more than it saves.
pub fn read_by_map(
    by: &Mapped,
    run: &[u8],
    width: usize,
    buffer: &mut [u8],
) -> Result<usize, Refusal>
    requires { IsRun run.now width }
    ensures { (result, buffer.new) ≡ handed_out (kept (row_mapped by.now.image.now by.now.bits.now by.now.unknown) (run_rows run.now width)) buffer.old }
{
    if by.unknown | (run.len() / width < 256) {
        return read_kept(by, run, width, buffer);
    }
    many_by_map(by, run, width, buffer)
}
