// The rules of records that are lent to the writer: the lowest record of a kind that breaks one. The records of a kind are one run, which is
// asked as the run of a block is.
ghost use Rattle.std.specs.Prelude.{◌%◌, ◌/◌, ◌≤◌, ◌≡◌, length};
ghost use Rattle.fields.specs.Scan.{first_bad};
ghost use Rattle.header.specs.declared.layout.Kind.TheVariants.{Component};
ghost use Rattle.header.specs.Layout.{record_size};
ghost use Rattle.records.specs.Existing.{Exist};
ghost use Rattle.records.specs.Fresh.{NamesKept};
ghost use Rattle.records.specs.Rules.{run_records, rule_of, fresh_rule};

use header::counts::Counts;
use header::layout::{Kind, size};
use records::existing::Existing;
use records::fresh;
use records::fresh::{Source, first_stale};
use records::runs::first_bad_after;

// The bytes that are lent: the records of each kind, without blocks.
#[derive(Clone, Copy)]
pub(crate) struct LentRecords<'a> {
    pub(crate) components: &'a [u8],
    pub(crate) labels: &'a [u8],
    pub(crate) users: &'a [u8],
}

// The first of the first `to` records whose name stands before it in its class; `to` where there is none. That is asked of components alone.
fn first_known(counts: Counts, kind: Kind, records: &[u8], to: usize) -> usize
    requires kind_len { (length records.now % record_size counts.edition kind ≡ 0) × (to ≤ length records.now / record_size counts.edition kind) }
    requires names_kept { kind ≡ Component → NamesKept (run_records 40 records.now) to }
    ensures { result ≡ first_bad (fresh_rule kind counts (run_records (record_size counts.edition kind) records.now)) to 0 }
{
    match kind {
        Kind::Component => {
            let mut seen = fresh::EMPTY;
            first_stale(Source::Run, records, counts, &mut seen, 0, to, records)
        }
        Kind::Label => to,
        Kind::User => to,
    }
}

// The lowest record of the kind that breaks a rule; their number where none does. Of the first, the one before it is not asked.
pub(crate) fn first_bad(existing: Existing, kind: Kind, records: &[u8]) -> usize
    requires exist { Exist existing × (existing.counts.levels ≤ 256) }
    requires kind_len { length records.now % record_size existing.counts.edition kind ≡ 0 }
    ensures { result ≡ first_bad (rule_of kind existing.counts (run_records (record_size existing.counts.edition kind) records.now)) (length records.now / record_size existing.counts.edition kind) 0 }
{
    let counts = existing.counts;
    let edition = counts.edition;
    if records.len() < size(edition, kind) {
        return 0;
    }
    let to = first_bad_after(existing, kind, 0, records, records);
    first_known(counts, kind, records, to)
}
