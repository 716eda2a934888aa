// Reading the rows of the run that an accepted table holds.
ghost use Rattle.std.specs.Prelude.{◌≡◌, true};
ghost use Rattle.access.specs.Rights.{rights_of};
ghost use Rattle.maps.specs.Map.{map_rule};
ghost use Rattle.rows.specs.Run.{IsRun, kept, run_rows};
ghost use Rattle.rows.specs.Table.{row_readable};
ghost use Rattle.rows.specs.Reading.{handed_out};
ghost use Rattle.rows.specs.Scan.{Usable};

use crate::mapped::{Mapped, read_by_map};
use crate::readable::Readable;
use crate::scan::read_kept;
use access::rights::View;
use access::verdicts::unknown_read;
use buffers::given::put_table;
use maps::given::put_map;
use refusals::Refusal;

// Every row is handed out.
fn read_whole(run: &[u8], width: usize, buffer: &mut [u8]) -> Result<usize, Refusal>
    requires { IsRun run.now width }
    ensures { (result, buffer.new) ≡ handed_out (run_rows run.now width) buffer.old }
{
    if buffer.len() < run.len() {
        return Err(Refusal::Room);
    }
    let end = put_table(run, buffer, 0);
    Ok(end / width)
}

// By bytes that are judged to be the map. Whoever sees rows of unknown tags sees every row.
pub fn read_judged(
    image: &[u8],
    view: View,
    bits: &[u8],
    run: &[u8],
    width: usize,
    buffer: &mut [u8],
) -> Result<usize, Refusal>
    requires { Usable image.now run.now width × (map_rule image.now (rights_of view) bits.now ≡ true) }
    ensures { (result, buffer.new) ≡ handed_out (kept (row_readable image.now (rights_of view)) (run_rows run.now width)) buffer.old }
{
    if unknown_read(image, view) {
        return read_whole(run, width, buffer);
    }
    let mapped = Mapped {
        image,
        bits,
        unknown: false,
    };
    read_by_map(&mapped, run, width, buffer)
}

// A verdict is asked of each label once, as a map of the session. By it, the read is the same.
fn read_many(
    image: &[u8],
    view: View,
    run: &[u8],
    width: usize,
    buffer: &mut [u8],
) -> Result<usize, Refusal>
    requires { Usable image.now run.now width }
    ensures { (result, buffer.new) ≡ handed_out (kept (row_readable image.now (rights_of view)) (run_rows run.now width)) buffer.old }
{
    let mut made = [0u8; 210];
    let end = put_map(image, view, &mut made);
    read_judged(image, view, &made[0..end], run, width, buffer)
}

// 13 where the readable rows are longer than the buffer: then no byte is written. Whoever sees rows of unknown tags sees every row. Of few rows a verdict is
// asked of each: a map pays from some hundreds of rows on.
pub fn read_accepted(
    image: &[u8],
    view: View,
    run: &[u8],
    width: usize,
    buffer: &mut [u8],
) -> Result<usize, Refusal>
    requires { Usable image.now run.now width }
    ensures { (result, buffer.new) ≡ handed_out (kept (row_readable image.now (rights_of view)) (run_rows run.now width)) buffer.old }
{
    if unknown_read(image, view) {
        return read_whole(run, width, buffer);
    }
    if run.len() / width < 256 {
        return read_kept(&Readable { image, view }, run, width, buffer);
    }
    read_many(image, view, run, width, buffer)
}
