// The question on a label, asked of its record. It is `reads_label` without a label in between, for those who ask it of every record.
ghost use Rattle.std.specs.Prelude.{◌+◌, ◌≤◌, ◌≡◌, length};
ghost use Rattle.header.specs.Layout.{by_edition};
ghost use Rattle.labels.specs.Label.{record_label};
ghost use Rattle.access.specs.Rights.{rights_of};
ghost use Rattle.access.specs.Verdicts.{reads_label};

use crate::rights::View;
use crate::verdicts::{holds_compaccess, reads_all};
use fields::numbers::number8;
use header::edition::Edition;
use labels::group_test;
use records::group_sets::group_set;
use sets::word;

// Most records fail an early test, and the sets of groups are read last.
pub fn reads_record(view: View, edition: Edition, rec: &[u8]) -> bool
    requires { 16 + by_edition edition 8 32 ≤ length rec.now }
    ensures { result ≡ reads_label (rights_of view) (record_label edition rec.now) }
{
    if reads_all(view) {
        return true;
    }
    if view.level < rec[4] {
        return false;
    }
    let compartments = number8(rec, 8);
    if !word::within(compartments, view.compartments) {
        return false;
    }
    if holds_compaccess(view) & !word::is_empty(compartments) {
        return true;
    }
    group_test::passes(
        view.profile,
        view.reached_groups,
        group_set(edition, rec, 16),
    )
}
