// The offset of the n-th readable row in the run that an accepted table holds.
ghost use Rattle.std.specs.Prelude.{◌≡◌, false, ◌/◌, ◌*◌, min, length};
ghost use Rattle.access.specs.Rights.{rights_of};
ghost use Rattle.access.specs.Verdicts.{unknown_read};
ghost use Rattle.rows.specs.Run.{IsRun, row_offset, offset_of, run_rows};
ghost use Rattle.rows.specs.Table.{row_readable};
ghost use Rattle.rows.specs.Scan.{Usable};

use crate::by_slots::Held;
use crate::readable::Readable;
use crate::run::row_offset;
use crate::scan::nth_kept;
use crate::slots::COUNT;
use crate::tags::fill;
use access::rights::View;
use access::verdicts::unknown_read;
use maps::given::put_map;

// Every row counts.
fn nth_of_all(run: &[u8], width: usize, n: usize) -> usize
    requires { IsRun run.now width }
    ensures { result ≡ row_offset width (min n (length run.now / width)) }
{
    if n < run.len() / width {
        return row_offset(width, n);
    }
    run.len()
}

// A verdict is asked of each label once, as a map of the session, for a session that reads no row of an unknown tag: by the map the same rows count.
// Where a tag finds no slot, a verdict is asked of each row.
#[inline(never)]
fn nth_of_many(image: &[u8], view: View, run: &[u8], width: usize, n: usize) -> usize
    requires usable { Usable image.now run.now width }
    requires view_value { unknown_read image.now (rights_of view) ≡ false }
    ensures { result ≡ offset_of (row_readable image.now (rights_of view)) n (run_rows run.now width) }
{
    let mut made = [0u8; 210];
    let end = put_map(image, view, &mut made);
    let mut slots = [0u32; COUNT];
    if !fill(image, &made[0..end], &mut slots) {
        return nth_kept(&Readable { image, view }, run, width, n);
    }
    nth_kept(&Held { slots: &slots }, run, width, n)
}

// The run's length where there is none. Whoever sees rows of unknown tags sees every row; a map pays from some hundreds of rows on.
pub fn nth_offset(image: &[u8], view: View, run: &[u8], width: usize, n: usize) -> usize
    requires { Usable image.now run.now width }
    ensures { result ≡ offset_of (row_readable image.now (rights_of view)) n (run_rows run.now width) }
{
    if unknown_read(image, view) {
        return nth_of_all(run, width, n);
    }
    if n < 256 {
        return nth_kept(&Readable { image, view }, run, width, n);
    }
    nth_of_many(image, view, run, width, n)
}
