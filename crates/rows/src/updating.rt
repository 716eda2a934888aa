// Updating a row of a table that is accepted.
ghost use Rattle.std.specs.Prelude.{◌≡◌};
ghost use Rattle.access.specs.Rights.{rights_of};
ghost use Rattle.rows.specs.Updating.{update_with};
ghost use Rattle.rows.specs.Scan.{UsableTable};

use crate::offsets::nth_offset;
use crate::readable::is_writable;
use crate::run::run_of;
use access::rights::View;
use buffers::given::put;
use refusals::Refusal;

// 16, 14, 15; otherwise the payload of the n-th readable row is replaced.
pub fn update_accepted(
    image: &[u8],
    view: View,
    table: &mut [u8],
    width: usize,
    n: usize,
    payload: &[u8],
) -> Result<(), Refusal>
    requires { UsableTable image.now table.old width }
    ensures { (result, table.new) ≡ update_with image.now (rights_of view) table.old width n payload.now }
{
    if payload.len() != width - 4 {
        return Err(Refusal::PayloadLength);
    }
    let run = run_of(table, width);
    let at = nth_offset(image, view, run, width, n);
    if run.len() <= at {
        return Err(Refusal::NoRow);
    }
    if !is_writable(image, view, &run[at..at + width]) {
        return Err(Refusal::RowNotWritable);
    }
    put(payload, table, at + 4);
    Ok(())
}
