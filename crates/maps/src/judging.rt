// Judging a map for whoever may not read every label: each label is asked. The lent bytes are compared where they stand, a word at a time, so that
// judging needs no room for a map of its own. All words but the last have eight bytes, which are one comparison.
ghost use Rattle.std.specs.Prelude.{◌≡◌, length};
ghost use Rattle.fields.specs.Names.{same_bytes};
ghost use Rattle.header.specs.Limits.{Counted};
ghost use Rattle.access.specs.Rights.{rights_of};
ghost use Rattle.maps.specs.Map.{map_length, map_of};
ghost use Rattle.maps.specs.Words.{bytes_of};

use crate::words::map_word;
use access::rights::View;
use fields::numbers::number8;
use header::contents::lower;
use header::edition::edition_of;
use header::layout::Kind;
use header::{layout, walk};

// One byte after the other, as `put_each` writes them. A closure for the one line in which the two loops differ would be no plainer than two loops.
fn are_each(w: u64, n: usize, bits: &[u8]) -> bool
    requires { length bits.now ≡ n }
    ensures { result ≡ same_bytes bits.now (bytes_of n w) }
{
    let mut rest = w;
    for i in 0..n {
        if bits[i] != (rest % 256) as u8 {
            return false;
        }
        rest = rest / 256;
    }
    true
}

// Are those the first n bytes of the word?
fn are_bytes(w: u64, n: usize, bits: &[u8]) -> bool
    requires { length bits.now ≡ n }
    ensures { result ≡ same_bytes bits.now (bytes_of n w) }
{
    if n == 8 {
        return number8(bits, 0) == w;
    }
    are_each(w, n, bits)
}

// Are those `count` bytes, as many as the map has, the map? The first word that differs ends the walk. The walk is that of `put_asked`. The two stay apart:
// a walk for both would take a closure that may stop it, a buffer that one of them lends, and a result that only the other has; no plainer than this loop.
pub(crate) fn judge_asked(image: &[u8], view: View, count: usize, bits: &[u8]) -> bool
    requires counted { Counted image.now × (length bits.now ≡ count) }
    requires count_value { count ≡ map_length image.now }
    ensures { result ≡ same_bytes bits.now (map_of image.now (rights_of view)) }
{
    let shape = layout::shape_of(image, Kind::Label);
    let edition = edition_of(image);
    let mut here = walk::record_at(shape, 0);
    for k in 0..(count + 7) / 8 {
        let word = map_word(image, view, shape, edition, k, here);
        let at = 8 * k;
        let end = lower(count, at + 8);
        if !are_bytes(word.bits, end - at, &bits[at..end]) {
            return false;
        }
        here = word.next;
    }
    true
}
