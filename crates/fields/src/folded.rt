// Names that stand in a label's text, with small letters taken as capitals. Two names of 16 bytes or more are compared by parts of 16 bytes, each in a loop
// without a branch, so that it becomes vector code; the last part may overlap the one before it, which compares the same bytes again.
ghost use Rattle.std.specs.Prelude.{◌+◌, ◌≤◌, ◌≡◌, length};
ghost use Rattle.fields.specs.Names.{same_bytes, folded, folded_name};
ghost use Rattle.fields.specs.Scan.{everywhere};
ghost use Rattle.fields.specs.Folded.{same_folded_at};

// A small letter is taken as its capital, any other byte as it is.
fn fold(x: u8) -> u8
    ensures { result ≡ folded x }
{
    x.to_ascii_uppercase()
}

// Are the 16 bytes of b from i on, folded, those of a?
fn same_part(a: &[u8], b: &[u8], i: usize) -> bool
    requires { (i + 16 ≤ length a.now) × (i + 16 ≤ length b.now) }
    ensures { result ≡ everywhere (same_folded_at a.now b.now) 16 i }
{
    let mut same = true;
    for j in 0..16 {
        same &= a[i + j] == fold(b[i + j]);
    }
    same
}

// Is b, folded, the name a, byte by byte?
fn same_short(a: &[u8], b: &[u8]) -> bool
    requires { length a.now ≡ length b.now }
    ensures { result ≡ same_bytes a.now (folded_name b.now) }
{
    for i in 0..a.len() {
        if a[i] != fold(b[i]) {
            return false;
        }
    }
    true
}

// Is b, folded, the name a?
pub fn same_folded(a: &[u8], b: &[u8]) -> bool
    ensures { result ≡ same_bytes a.now (folded_name b.now) }
{
    let n = a.len();
    if n != b.len() {
        return false;
    }
    if n < 16 {
        return same_short(a, b);
    }
    let last = n - 16;
    for j in 0..(n - 1) / 16 {
        if !same_part(a, b, 16 * j) {
            return false;
        }
    }
    same_part(a, b, last)
}
