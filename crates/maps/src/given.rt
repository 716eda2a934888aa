// Maps for the crates above, once the image is known to be accepted.
ghost use Rattle.std.specs.Prelude.{◌*◌, ◌<◌, ◌≤◌, ◌≡◌, length};
ghost use Rattle.buffers.specs.Filling.{written_to};
ghost use Rattle.buffers.specs.Pasting.{Written};
ghost use Rattle.header.specs.Limits.{Counted};
ghost use Rattle.access.specs.Rights.{rights_of};
ghost use Rattle.maps.specs.Map.{bit_of, map_length, map_of, map_rule};

use crate::judging::judge_asked;
use crate::making::put_asked;
use crate::whole::{is_whole, put_whole};
use access::rights::View;
use access::verdicts::reads_all;
use header::layout;
use refusals::Refusal;
use sets::word;

// As few bytes as hold a bit for each label record.
fn map_length(image: &[u8]) -> usize
    requires { Counted image.now }
    ensures { (result ≡ map_length image.now) × (result < 65536) }
{
    (layout::labels(image) + 7) / 8
}

// Bit p of a map.
pub fn bit_of(bits: &[u8], p: usize) -> bool
    requires { p < 8 * length bits.now }
    ensures { result ≡ bit_of bits.now p }
{
    word::has(bits[p / 8] as u64, p % 8)
}

// Writes the map to the front of the buffer, and tells its length. Where the answer is yes to every label, none is asked.
pub fn put_map(image: &[u8], view: View, buffer: &mut [u8]) -> usize
    requires { Counted image.now × (map_length image.now ≤ length buffer.old) }
    ensures { Written buffer.old 0 (map_of image.now (rights_of view)) buffer.new result }
{
    let count = map_length(image);
    if reads_all(view) {
        return put_whole(layout::labels(image), count, buffer);
    }
    put_asked(image, view, count, buffer)
}

// Refusal: 13.
pub(crate) fn write_map(image: &[u8], view: View, buffer: &mut [u8]) -> Result<usize, Refusal>
    requires { Counted image.now }
    ensures { (result, buffer.new) ≡ written_to buffer.old (map_of image.now (rights_of view)) }
{
    if buffer.len() < map_length(image) {
        return Err(Refusal::Room);
    }
    let length = put_map(image, view, buffer);
    Ok(length)
}

// Are those bytes the map? They are compared where they stand, with no map made.
pub fn is_map(image: &[u8], view: View, bits: &[u8]) -> bool
    requires { Counted image.now }
    ensures { result ≡ map_rule image.now (rights_of view) bits.now }
{
    let count = map_length(image);
    if bits.len() != count {
        return false;
    }
    let whole = reads_all(view);
    if whole {
        return is_whole(layout::labels(image), bits);
    }
    judge_asked(image, view, count, bits)
}
