// Runs of records of one kind, one right after the other: those of a block, or all that a writer is lent.
ghost use Rattle.std.specs.Prelude.{◌≡◌, ◌-◌, ◌%◌, ◌<◌, ◌≤◌, length, if◌then◌else◌, nat_lt};
ghost use Rattle.fields.specs.Bytes.{part};
ghost use Rattle.header.specs.declared.edition.Edition.TheVariants.{One};
ghost use Rattle.header.specs.Layout.{record_size};
ghost use Rattle.records.specs.Existing.{Exist};
ghost use Rattle.records.specs.Rules.{first_bad_of_run};

use crate::component_run::first_bad_component;
use crate::existing::Existing;
use crate::label_run::first_bad_label;
use crate::user_run::first_bad_user;
use header::layout::Kind;

// The record before the one that begins at `at`; before the first of the run stands `previous`.
pub fn record_before<'a>(previous: &'a [u8], run: &'a [u8], at: usize, size: usize) -> &'a [u8]
    requires { at ≤ length run.now }
    ensures { result.now ≡ (if nat_lt at size then previous.now else part run.now (at - size) size) }
{
    if at < size {
        return previous;
    }
    let start = at - size;
    &run[start..at]
}

// The first record of the run that breaks a rule, names of components among each other aside; their number where none does. The first of
// them is at place k of its kind.
pub fn first_bad_after(
    existing: Existing,
    kind: Kind,
    k: usize,
    previous: &[u8],
    run: &[u8],
) -> usize
    requires exist { Exist existing × ((existing.counts.levels ≤ 256) × (k < 4294967296)) }
    requires kind_len { (length run.now % record_size existing.counts.edition kind ≡ 0) × (record_size One kind ≤ length previous.now) }
    ensures { result ≡ first_bad_of_run kind existing.counts k previous.now run.now }
{
    match kind {
        Kind::Component => first_bad_component(existing.counts, k, previous, run),
        Kind::Label => first_bad_label(existing, k, previous, run),
        Kind::User => first_bad_user(existing, k, previous, run),
    }
}
