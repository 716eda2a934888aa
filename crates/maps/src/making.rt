// The map for whoever may not read every label: each label is asked. It is written a word at a time, lowest byte first. All words but the last have
// eight bytes, which are one store.
ghost use Rattle.std.specs.Prelude.{◌≤◌, ◌≡◌, length};
ghost use Rattle.buffers.specs.Pasting.{Written};
ghost use Rattle.header.specs.Limits.{Counted};
ghost use Rattle.access.specs.Rights.{rights_of};
ghost use Rattle.maps.specs.Map.{map_length, map_of};
ghost use Rattle.maps.specs.Words.{bytes_of};

use crate::words::map_word;
use access::rights::View;
use header::contents::lower;
use header::edition::edition_of;
use header::layout::Kind;
use header::{layout, walk};

// One byte after the other.
fn put_each(w: u64, n: usize, to: &mut [u8])
    requires { length to.old ≡ n }
    ensures { to.new ≡ bytes_of n w }
{
    let mut rest = w;
    for i in 0..n {
        to[i] = (rest % 256) as u8;
        rest = rest / 256;
    }
}

// The first n bytes of the word.
fn put_bytes(w: u64, n: usize, to: &mut [u8])
    requires { length to.old ≡ n }
    ensures { to.new ≡ bytes_of n w }
{
    if n == 8 {
        to.copy_from_slice(&w.to_le_bytes());
        return;
    }
    put_each(w, n, to)
}

// Writes the map to the front of the buffer, and tells its length, which is `count`.
pub(crate) fn put_asked(image: &[u8], view: View, count: usize, buffer: &mut [u8]) -> usize
    requires counted { Counted image.now × (map_length image.now ≤ length buffer.old) }
    requires count_value { count ≡ map_length image.now }
    ensures { Written buffer.old 0 (map_of image.now (rights_of view)) buffer.new result }
{
    let shape = layout::shape_of(image, Kind::Label);
    let edition = edition_of(image);
    let mut here = walk::record_at(shape, 0);
    for k in 0..(count + 7) / 8 {
        let word = map_word(image, view, shape, edition, k, here);
        let at = 8 * k;
        let end = lower(count, at + 8);
        put_bytes(word.bits, end - at, &mut buffer[at..end]);
        here = word.next;
    }
    count
}
