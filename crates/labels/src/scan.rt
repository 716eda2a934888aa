// Passing over text by parts of 16 bytes, each looked at in a loop without a branch, so that it becomes vector code. Only a part in which the search
// ends, and the last bytes, are then looked at one by one. In such a part the search needs no test for the text's end.
ghost use Rattle.std.specs.Prelude.{ℕ, ◌+◌, ◌-◌, ◌≤◌, ◌≡◌, Bool, false, not, eqb, length};
ghost use Rattle.fields.specs.Scan.{first_bad, everywhere};
ghost use Rattle.labels.specs.Text.{text_byte};
ghost use Rattle.labels.specs.Tests.{passes_at};

use fields::names::{name_byte, small_letter};

// A test of a byte. A search ends at the first byte that fails it.
pub trait ByteTest: Copy {
    ghost test: { Self → ℕ → Bool };

    // Without a branch.
    fn passes(self, x: u8) -> bool
        ensures { result ≡ test self x };

    // The same for a byte that is asked alone, where leaving early is quicker.
    fn passes_alone(self, x: u8) -> bool
        ensures { result ≡ test self x };
}

// Passed by each byte but the mark.
#[derive(Clone, Copy)]
pub struct Lacks {
    pub mark: u8,
}

impl ByteTest for Lacks {
    ghost test = { λ s x. not (eqb x s.mark) };

    fn passes(self, x: u8) -> bool {
        x != self.mark
    }

    fn passes_alone(self, x: u8) -> bool {
        x != self.mark
    }
}

// Passed by the bytes that a name may have.
#[derive(Clone, Copy)]
pub struct InName;

impl ByteTest for InName {
    ghost test = { λ s x. text_byte x };

    fn passes(self, x: u8) -> bool {
        in_text(x)
    }

    fn passes_alone(self, x: u8) -> bool {
        text_byte(x)
    }
}

// A byte that a name in label text may have: one that an image's name may have, or a small letter.
pub fn text_byte(x: u8) -> bool
    ensures { result ≡ text_byte x }
{
    name_byte(x) | small_letter(x)
}

// The same without a branch.
fn in_text(x: u8) -> bool
    ensures { result ≡ text_byte x }
{
    ((b'A' <= x) & (x <= b'Z'))
        | ((b'0' <= x) & (x <= b'9'))
        | (x == b'_')
        | ((b'a' <= x) & (x <= b'z'))
}

// Does each of the 16 bytes from i on pass the test? All are asked: an iterator's `all` would leave early, by a branch for each byte.
fn part_passes<T: ByteTest>(test: T, text: &[u8], i: usize) -> bool
    requires { i + 16 ≤ length text.now }
    ensures { result ≡ everywhere (passes_at (T.test test) text.now) 16 i }
{
    let mut all = true;
    for j in 0..16 {
        all = all & test.passes(text[i + j]);
    }
    all
}

// The first of the 16 bytes from i on that fails the test; one of them does. So this is no loop over a range, which would test for its end too.
fn stop_in_part<T: ByteTest>(test: T, text: &[u8], i: usize) -> usize
    requires { (i + 16 ≤ length text.now) × (everywhere (passes_at (T.test test) text.now) 16 i ≡ false) }
    ensures { result ≡ first_bad (passes_at (T.test test) text.now) 16 i }
{
    let mut k = i;
    while test.passes_alone(text[k]) {
        k += 1;
    }
    k
}

// The same as `first_stop`, byte by byte, for the last bytes, which make no part.
fn rest_stop<T: ByteTest>(test: T, text: &[u8], at: usize) -> usize
    requires { at ≤ length text.now }
    ensures { result ≡ first_bad (passes_at (T.test test) text.now) (length text.now - at) at }
{
    for i in at..text.len() {
        if !test.passes_alone(text[i]) {
            return i;
        }
    }
    text.len()
}

// The first place from `at` on whose byte fails the test; the text's length where none does.
pub fn first_stop<T: ByteTest>(test: T, text: &[u8], at: usize) -> usize
    requires { at ≤ length text.now }
    ensures { result ≡ first_bad (passes_at (T.test test) text.now) (length text.now - at) at }
{
    let parts = (text.len() - at) / 16;
    for p in 0..parts {
        let i = at + 16 * p;
        if !part_passes(test, text, i) {
            return stop_in_part(test, text, i);
        }
    }
    rest_stop(test, text, at + 16 * parts)
}
