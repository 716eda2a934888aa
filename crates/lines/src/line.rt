// One line of the report: a user's name, a label record's tag, and the verdicts on that label.
ghost use Rattle.std.specs.Prelude.{◌+◌, ◌≤◌, ◌<◌, ◌≡◌, ◌∷◌, length};
ghost use Rattle.header.specs.Layout.{labels, label_record};
ghost use Rattle.records.specs.Fields.{tag_of};
ghost use Rattle.header.specs.Limits.{Counted};
ghost use Rattle.labels.specs.Label.{marks_of};
ghost use Rattle.access.specs.Rights.{rights_of};
ghost use Rattle.buffers.specs.Pasting.{Written};
ghost use Rattle.lines.specs.Lines.{space, grant_letter, decimal, ending, line_at};
ghost use Rattle.lines.specs.Parts.{AtOpening};

use crate::numbers::put_number;
use access::rights::View;
use access::verdicts::{label_at, reads_label, writes_label};
use buffers::given::put;
use labels::label::Label;
use records::{labels as label_records, users};

// The letter where it is granted, `-` where it is denied: no conversion of the bool, as the letter is the caller's.
fn shown(granted: bool, letter: u8) -> u8
    ensures { result ≡ grant_letter granted letter }
{
    if granted { letter } else { b'-' }
}

// Writes a blank, the verdicts on the label, and the line's end.
fn put_verdicts(view: View, row: Label, buffer: &mut [u8], at: usize) -> usize
    requires { at + 4 ≤ length buffer.old }
    ensures { Written buffer.old at (ending (rights_of view) (marks_of row)) buffer.new result }
{
    let reads = shown(reads_label(view, row), b'r');
    let writes = shown(writes_label(view, row), b'w');
    put(&[b' ', reads, writes, b'\n'], buffer, at)
}

// Writes a blank and the tag of the k-th label record.
fn put_tag(image: &[u8], k: usize, buffer: &mut [u8], at: usize) -> usize
    requires counted { Counted image.now × (k < labels image.now) }
    requires k_in_bounds { at + 1 + length (decimal (tag_of (label_record image.now k))) ≤ length buffer.old }
    ensures { Written buffer.old at (space ∷ decimal (tag_of (label_record image.now k))) buffer.new result }
{
    let tag = label_records::tag(image, k);
    buffer[at] = b' ';
    put_number(tag as u64, buffer, at + 1)
}

// Writes the line of the user at place u and the k-th label record. The view is what the user's opened session gives.
pub fn line(image: &[u8], view: View, u: usize, k: usize, buffer: &mut [u8], at: usize) -> usize
    requires at_opening { AtOpening image.now u (rights_of view) × (k < labels image.now) }
    requires at_in_bounds { at + 43 ≤ length buffer.old }
    ensures { Written buffer.old at (line_at image.now u k) buffer.new result }
{
    let name = users::name(image, u);
    let row = label_at(image, k);
    let named = put(name, buffer, at);
    let tagged = put_tag(image, k, buffer, named);
    put_verdicts(view, row, buffer, tagged)
}
