// A walk over the records of a kind, from block to block or from record to record: it divides only where it begins.
ghost use Rattle.std.specs.Prelude.{◌+◌, ◌-◌, ◌*◌, ◌^◌, ◌<◌, ◌≤◌, min, ◌≡◌, length};
ghost use Rattle.header.specs.Layout.{blocks_needed, Roomy, record_offset, Standing, kind_at, contents_of};

use crate::layout;
use crate::layout::{Contents, Kind, Shape};

// Where a record begins, and how many records its block has room for from it on.
#[derive(Clone, Copy)]
pub struct RecordAt {
    pub at: usize,
    pub left: usize,
}

pub fn record_at(shape: Shape, j: usize) -> RecordAt
    requires { Roomy shape × (record_offset shape j < 2 ^ 63) }
    ensures { Standing shape j result }
{
    RecordAt {
        at: layout::record_offset(shape, j),
        left: shape.capacity - layout::record_slot(shape, j),
    }
}

// The first record of the next block. Between the last of a block and it stand unused bytes, the check and the block's head.
pub fn next_block(shape: Shape, here: RecordAt, j: usize) -> RecordAt
    requires { Roomy shape × (Standing shape j here × (record_offset shape j < 2 ^ 63)) }
    ensures { Standing shape (j + here.left) result }
{
    RecordAt {
        at: here.at + shape.size * here.left + (512 - shape.size * shape.capacity),
        left: shape.capacity,
    }
}

// The record after that one: in the same block, or the first of the next.
pub fn next_record(shape: Shape, here: RecordAt, j: usize) -> RecordAt
    requires { Roomy shape × (Standing shape j here × (record_offset shape j < 2 ^ 63)) }
    ensures { Standing shape (j + 1) result }
{
    if here.left > 1 {
        return RecordAt {
            at: here.at + shape.size,
            left: here.left - 1,
        };
    }
    next_block(shape, here, j)
}
