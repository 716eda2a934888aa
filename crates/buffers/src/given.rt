// Bytes written over those of a lent buffer, for the crates above.
ghost use Rattle.std.specs.Prelude.{◌+◌, ◌≤◌, length};
ghost use Rattle.buffers.specs.Pasting.{Written};

use crate::parts::{put_front, put_long, put_parts};

// A text of a few bytes, one byte after the other.
fn put_short(text: &[u8], buffer: &mut [u8], at: usize) -> usize
    requires { at + length text.now ≤ length buffer.old }
    ensures { Written buffer.old at text.now buffer.new result }
{
    for i in 0..text.len() {
        buffer[at + i] = text[i];
    }
    at + text.len()
}

// Writes the text over the buffer's bytes from `at` on, and tells where it ends.
pub fn put(text: &[u8], buffer: &mut [u8], at: usize) -> usize
    requires { at + length text.now ≤ length buffer.old }
    ensures { Written buffer.old at text.now buffer.new result }
{
    if text.len() < 8 {
        return put_short(text, buffer, at);
    }
    if 64 <= text.len() {
        put_long(text, buffer, at);
        return at + text.len();
    }
    put_parts(text, buffer, at);
    at + text.len()
}

// The same of a text that may be very long, as a whole table is: in parts of 256 bytes, and what is left as any text. It stands apart, so that `put` needs
// no more registers for a short one.
pub fn put_table(text: &[u8], buffer: &mut [u8], at: usize) -> usize
    requires { at + length text.now ≤ length buffer.old }
    ensures { Written buffer.old at text.now buffer.new result }
{
    let from = put_front(text, buffer, at);
    put(&text[from..], buffer, at + from)
}
