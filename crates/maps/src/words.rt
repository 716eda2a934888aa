// A word of a map: the bits of 64 label records, or of those that are left. Maps are made, and judged, a word at a time.
ghost use Rattle.std.specs.Prelude.{◌*◌, ◌+◌, ◌/◌, ◌%◌, ◌^◌, ◌<◌, ◌≤◌, min, ◌≡◌, length};
ghost use Rattle.fields.specs.Bytes.{part};
ghost use Rattle.sets.specs.Sets.{collect};
ghost use Rattle.header.specs.declared.layout.Kind.TheVariants.{Label};
ghost use Rattle.header.specs.Layout.{edition_of, record_size, labels, Roomy, Shaped, record_offset, Standing};
ghost use Rattle.header.specs.Limits.{Counted};
ghost use Rattle.labels.specs.Label.{record_label};
ghost use Rattle.access.specs.Rights.{rights_of};
ghost use Rattle.access.specs.Verdicts.{reads_label};
ghost use Rattle.maps.specs.Words.{map_word};

use access::record::reads_record;
use access::rights::View;
use header::contents::lower;
use header::edition::Edition;
use header::layout::Shape;
use header::walk;
use header::walk::RecordAt;
use sets::word;

// A word, and where the walk over the label records stands after it.
#[derive(Clone, Copy)]
pub struct Word {
    pub bits: u64,
    pub next: RecordAt,
}

// Bit i tells whether the label of the run's record i may be read. The records of a block stand one right after the other.
fn run_bits(view: View, edition: Edition, size: usize, run: &[u8]) -> u64
    requires { (size ≡ record_size edition Label) × ((length run.now % size ≡ 0) × (length run.now / size ≤ 64)) }
    ensures { result ≡ collect (λ i. reads_label (rights_of view) (record_label edition (part run.now (size * i) size))) (length run.now / size) }
{
    let mut set = 0u64;
    for (i, record) in run.chunks_exact(size).enumerate() {
        if reads_record(view, edition, record) {
            set = word::with(set, i);
        }
    }
    set
}

// From record j, n records on: in the same block, or to the first record of the next.
fn forward(shape: Shape, here: RecordAt, j: usize, n: usize) -> RecordAt
    requires roomy { Roomy shape × (Standing shape j here × (record_offset shape j < 2 ^ 63)) }
    requires n_le_left { n ≤ here.left }
    ensures { Standing shape (j + n) result }
{
    if n < here.left {
        return RecordAt {
            at: here.at + shape.size * n,
            left: here.left - n,
        };
    }
    walk::next_block(shape, here, j)
}

// Word k: bit i tells of the record at place 64 k + i. It is put together from the runs that its records have in their blocks, and the walk goes on
// from where the word before left it, so that nothing is divided here.
pub(crate) fn map_word(
    image: &[u8],
    view: View,
    shape: Shape,
    edition: Edition,
    k: usize,
    start: RecordAt,
) -> Word
    requires counted { Counted image.now × (Shaped image.now Label shape × (edition ≡ edition_of image.now)) }
    requires k_bound { (64 * k < labels image.now) × Standing shape (64 * k) start }
    ensures { (result.bits ≡ map_word image.now (rights_of view) k) × Standing shape (min (64 * k + 64) (labels image.now)) result.next }
{
    let first = 64 * k;
    let count = lower(64, shape.count - first);
    let mut here = start;
    let mut bits = 0u64;
    let mut i = 0;
    // `while`: a run is as long as its block allows, so that i moves by what is found.
    while i < count {
        let n = lower(count - i, here.left);
        let at = here.at;
        let end = at + shape.size * n;
        let run = run_bits(view, edition, shape.size, &image[at..end]);
        let shifted = run << i;
        bits = word::union(bits, shifted);
        here = forward(shape, here, first + i, n);
        i += n;
    }
    Word { bits, next: here }
}
