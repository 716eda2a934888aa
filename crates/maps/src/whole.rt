// The map for whoever reads every label. All its bits are known beforehand, so no label is looked at: the bit of each record is set, and the spare
// bits are zero.
ghost use Rattle.std.specs.Prelude.{◌+◌, ◌/◌, ◌≤◌, ◌≡◌, length};
ghost use Rattle.buffers.specs.Pasting.{Written};
ghost use Rattle.fields.specs.Names.{same_bytes};
ghost use Rattle.maps.specs.Whole.{all_set, whole_map};

use sets::word;

// Writes the map of so many labels to the front of the buffer, and tells `count`, which is its length. Eight labels fill a byte: each full byte is
// 255. A last one has a bit for each label that is left; where none is left, there is no such byte.
pub(crate) fn put_whole(labels: usize, count: usize, buffer: &mut [u8]) -> usize
    requires { (count ≡ (labels + 7) / 8) × (count ≤ length buffer.old) }
    ensures { Written buffer.old 0 (whole_map labels) buffer.new result }
{
    let full = labels / 8;
    let left = labels % 8;
    for k in 0..full {
        buffer[k] = 255;
    }
    if left == 0 {
        return count;
    }
    let last = word::all_below(left) as u8;
    buffer[full] = last;
    count
}

// Is every byte 255? There is one way out, at the end: so the loop becomes vector code.
fn all_set(bits: &[u8]) -> bool
    ensures { result ≡ all_set bits.now }
{
    let mut seen: u8 = 255;
    for byte in bits {
        seen = seen & *byte;
    }
    seen == 255
}

// Are those bytes, as many as the map of so many labels has, that map?
pub(crate) fn is_whole(labels: usize, bits: &[u8]) -> bool
    requires { length bits.now ≡ (labels + 7) / 8 }
    ensures { result ≡ same_bytes bits.now (whole_map labels) }
{
    let full = labels / 8;
    let rest = labels % 8;
    if !all_set(&bits[0..full]) {
        return false;
    }
    if rest == 0 {
        return true;
    }
    let last = word::all_below(rest) as u8;
    bits[full] == last
}
