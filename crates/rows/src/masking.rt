// The verdict on the row at a place of the run that an accepted table holds.
ghost use Rattle.std.specs.Prelude.{◌≡◌};
ghost use Rattle.access.specs.Rights.{rights_of};
ghost use Rattle.rows.specs.Run.{run_rows};
ghost use Rattle.rows.specs.Masked.{place_verdict};
ghost use Rattle.rows.specs.Scan.{Usable};

use crate::readable::is_readable;
use crate::run::row_offset;
use access::rights::View;
use refusals::Refusal;

// 14 where there is no row at that place.
pub fn place_verdict(
    image: &[u8],
    view: View,
    run: &[u8],
    width: usize,
    place: usize,
) -> Result<bool, Refusal>
    requires { Usable image.now run.now width }
    ensures { result ≡ place_verdict image.now (rights_of view) (run_rows run.now width) place }
{
    if run.len() / width <= place {
        return Err(Refusal::NoRow);
    }
    let at = row_offset(width, place);
    Ok(is_readable(image, view, &run[at..at + width]))
}
