// Rows of a run one after the other, for any test of a row. Each function is compiled apart for each test.
ghost use Rattle.std.specs.Prelude.{◌≤◌, ◌≡◌, ℕ, Bool, List, leb, length};
ghost use Rattle.rows.specs.Run.{IsRun, kept, offset_of, run_rows};
ghost use Rattle.rows.specs.Reading.{handed_out};
ghost use Rattle.rows.specs.Scan.{kept_bytes};

use crate::copying::copy_kept;
use refusals::Refusal;

// Which rows count: a row has at least its tag.
pub trait RowTest {
    ghost passes: { Self → List ℕ → Bool };

    fn passes(&self, row: &[u8]) -> bool
        requires { 4 ≤ length row.now }
        ensures { result ≡ passes self.now row.now };
}

// How many bytes the rows have that pass.
fn kept_length<T: RowTest>(test: &T, run: &[u8], width: usize) -> usize
    requires { IsRun run.now width }
    ensures { result ≡ length (kept_bytes (T.passes test.now) run.now width) }
{
    let mut n = 0;
    for row in run.chunks_exact(width) {
        if test.passes(row) {
            n += width;
        }
    }
    n
}

// Do that many bytes hold these rows? Where they hold the whole run, nothing has to be counted.
pub fn kept_fits<T: RowTest>(test: &T, run: &[u8], width: usize, room: usize) -> bool
    requires { IsRun run.now width }
    ensures { result ≡ leb (length (kept_bytes (T.passes test.now) run.now width)) room }
{
    if run.len() <= room {
        return true;
    }
    kept_length(test, run, width) <= room
}

// The offset of the n-th row that passes; the run's length where there is none.
pub fn nth_kept<T: RowTest>(test: &T, run: &[u8], width: usize, n: usize) -> usize
    requires { IsRun run.now width }
    ensures { result ≡ offset_of (T.passes test.now) n (run_rows run.now width) }
{
    let mut left = n;
    let mut at = 0;
    for row in run.chunks_exact(width) {
        if test.passes(row) {
            if left == 0 {
                return at;
            }
            left -= 1;
        }
        at += width;
    }
    at
}

// 13 where these rows are longer than the buffer: then no byte is written.
pub fn read_kept<T: RowTest>(
    test: &T,
    run: &[u8],
    width: usize,
    buffer: &mut [u8],
) -> Result<usize, Refusal>
    requires { IsRun run.now width }
    ensures { (result, buffer.new) ≡ handed_out (kept (T.passes test.now) (run_rows run.now width)) buffer.old }
{
    if !kept_fits(test, run, width, buffer.len()) {
        return Err(Refusal::Room);
    }
    let end = copy_kept(test, run, width, buffer);
    Ok(end / width)
}
