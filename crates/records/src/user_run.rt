// The users of a run, one right after the other: what is asked of each and of the one before it.
ghost use Rattle.std.specs.Prelude.{◌≡◌, ◌%◌, ◌<◌, ◌≤◌, length};
ghost use Rattle.header.specs.declared.layout.Kind.TheVariants.{User};
ghost use Rattle.header.specs.Layout.{record_size};
ghost use Rattle.records.specs.Existing.{Exist};
ghost use Rattle.records.specs.Rules.{first_bad_of_run};

use crate::existing::Existing;
use crate::runs::record_before;
use crate::users::user_ok;
use header::layout;
use header::layout::Kind;

// The first that breaks a rule; their number where none does. The first of the run is at place k.
pub fn first_bad_user(existing: Existing, k: usize, previous: &[u8], run: &[u8]) -> usize
    requires exist { Exist existing × (length run.now % record_size existing.counts.edition User ≡ 0) }
    requires in_bounds { (128 ≤ length previous.now) × (k < 4294967296) }
    ensures { result ≡ first_bad_of_run User existing.counts k previous.now run.now }
{
    let size = layout::size(existing.counts.edition, Kind::User);
    let count = run.len() / size;
    for j in 0..count {
        let at = size * j;
        let rec = &run[at..at + size];
        let before = record_before(previous, run, at, size);
        if !user_ok(existing, k + j, before, rec) {
            return j;
        }
    }
    count
}
