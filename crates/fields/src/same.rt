// Equality of two runs of bytes of one length. A run of eight bytes or more is compared a word of eight at a time: equal words are equal
// bytes. The last word is the last eight bytes, so it may overlap the one before it; it is compared first, since names often begin alike.
ghost use Rattle.std.specs.Prelude.{◌≤◌, ◌≡◌, length};
ghost use Rattle.fields.specs.Names.{same_bytes};

use crate::numbers::number8;

// Byte by byte, as `==` of slices calls `memcmp`. `same_short` of `folded` has the same loop: of a function for both, the contract would say what the
// closure gives for a byte, which is longer than the loop.
pub fn same_bytes(a: &[u8], b: &[u8]) -> bool
    requires { length a.now ≡ length b.now }
    ensures { result ≡ same_bytes a.now b.now }
{
    for i in 0..a.len() {
        if a[i] != b[i] {
            return false;
        }
    }
    true
}

pub fn same_words(a: &[u8], b: &[u8]) -> bool
    requires { (length a.now ≡ length b.now) × (8 ≤ length a.now) }
    ensures { result ≡ same_bytes a.now b.now }
{
    let last = a.len() - 8;
    if number8(a, last) != number8(b, last) {
        return false;
    }
    for j in 0..(a.len() - 1) / 8 {
        let at = 8 * j;
        if number8(a, at) != number8(b, at) {
            return false;
        }
    }
    true
}
