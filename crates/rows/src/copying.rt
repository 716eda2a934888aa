// Rows written over the bytes of a buffer.
ghost use Rattle.std.specs.Prelude.{◌+◌, ◌≤◌, ◌≡◌, length};
ghost use Rattle.fields.specs.Bytes.{number8};
ghost use Rattle.buffers.specs.Pasting.{pasted, Written};
ghost use Rattle.rows.specs.Run.{IsRun};
ghost use Rattle.rows.specs.Scan.{kept_bytes};
ghost use Rattle.rows.specs.Words.{word_bytes};

use crate::scan::RowTest;
use buffers::given::put;
use buffers::parts::{put8, put16, put32};

// The eight bytes of a word, the lowest first.
fn put_word(w: u64, place: &mut [u8])
    requires { length place.old ≡ 8 }
    ensures { place.new ≡ word_bytes w }
{
    place.copy_from_slice(&w.to_le_bytes());
}

// A row of 8 bytes or more. Its first 8 bytes come as the number that they are: whoever has read the row's tag has them already. The others follow in
// parts of 8, 16 or 32 bytes. The last part ends where the row ends: what it writes again are the bytes that stand there already. Up to 72 bytes no
// loop is needed.
pub fn put_row(text: &[u8], first: u64, buffer: &mut [u8], at: usize)
    requires in_bounds { (8 ≤ length text.now) × (at + length text.now ≤ length buffer.old) }
    requires first_value { first ≡ number8 text.now 0 }
    ensures { buffer.new ≡ pasted buffer.old at text.now }
{
    let n = text.len();
    put_word(first, &mut buffer[at..at + 8]);
    if n <= 16 {
        put8(text, n - 8, buffer, at);
        return;
    }
    if n < 40 {
        let last = n - 16;
        if 8 < last {
            put16(text, 8, buffer, at);
        }
        put16(text, last, buffer, at);
        return;
    }
    let last = n - 32;
    if n <= 72 {
        put32(text, 8, buffer, at);
        put32(text, last, buffer, at);
        return;
    }
    // `while`: where it ends, i tells how far the row stands, and the last part begins no later. A `for` by steps would lose that place.
    let mut i = 8;
    while i < last {
        put32(text, i, buffer, at);
        i += 32;
    }
    put32(text, last, buffer, at);
}

// Writes the rows that pass to the front of the buffer, and tells where they end.
pub fn copy_kept<T: RowTest>(test: &T, run: &[u8], width: usize, buffer: &mut [u8]) -> usize
    requires run { IsRun run.now width }
    requires width_in_bounds { length (kept_bytes (T.passes test.now) run.now width) ≤ length buffer.old }
    ensures { Written buffer.old 0 (kept_bytes (T.passes test.now) run.now width) buffer.new result }
{
    let mut to = 0;
    for row in run.chunks_exact(width) {
        if test.passes(row) {
            to = put(row, buffer, to);
        }
    }
    to
}
