// A text of 8 bytes or more, written over those of a buffer in parts of 8, 16, 32 or 256 bytes: for 10 bytes that takes 13 instructions, where one byte after
// the other takes 53. The last part ends where the text ends: what it writes again are the bytes that stand there already. Parts of 256 bytes are followed by
// others.
ghost use Rattle.std.specs.Prelude.{◌+◌, ◌≤◌, ◌≡◌, length, take, drop};
ghost use Rattle.buffers.specs.Pasting.{pasted};

// N bytes, a constant number of turns, which the compiler writes out. `copy_from_slice` in its place was tried: from text to buffer it looks whether the two
// overlap (37 instructions for 8 bytes, not 14), and through the array of `put_part` it costs `put` a saved register for every short text.
fn copy_bytes<const N: usize>(from: &[u8], to: &mut [u8])
    requires { (length from.now ≡ N) × (length to.old ≡ N) }
    ensures { to.new ≡ from.now }
{
    for k in 0..N {
        to[k] = from[k];
    }
}

// The N bytes of the text from i on. All are read before any is written. Only so does the compiler move them at once, as references may overlap for all it
// knows.
fn put_part<const N: usize>(text: &[u8], i: usize, buffer: &mut [u8], at: usize)
    requires { (i + N ≤ length text.now) × (at + length text.now ≤ length buffer.old) }
    ensures { buffer.new ≡ pasted buffer.old (at + i) (take N (drop i text.now)) }
{
    let to = at + i;
    let mut part = [0u8; N];
    copy_bytes::<N>(&text[i..i + N], &mut part);
    copy_bytes::<N>(&part, &mut buffer[to..to + N])
}

// The 8 bytes of the text from i on.
pub fn put8(text: &[u8], i: usize, buffer: &mut [u8], at: usize)
    requires { (i + 8 ≤ length text.now) × (at + length text.now ≤ length buffer.old) }
    ensures { buffer.new ≡ pasted buffer.old (at + i) (take 8 (drop i text.now)) }
{
    put_part::<8>(text, i, buffer, at)
}

// The 16 bytes of the text from i on.
pub fn put16(text: &[u8], i: usize, buffer: &mut [u8], at: usize)
    requires { (i + 16 ≤ length text.now) × (at + length text.now ≤ length buffer.old) }
    ensures { buffer.new ≡ pasted buffer.old (at + i) (take 16 (drop i text.now)) }
{
    put_part::<16>(text, i, buffer, at)
}

// The 32 bytes of the text from i on: the compiler moves 16 at once.
pub fn put32(text: &[u8], i: usize, buffer: &mut [u8], at: usize)
    requires { (i + 32 ≤ length text.now) × (at + length text.now ≤ length buffer.old) }
    ensures { buffer.new ≡ pasted buffer.old (at + i) (take 32 (drop i text.now)) }
{
    put_part::<32>(text, i, buffer, at)
}

// A long text, in parts of 32 bytes.
pub(crate) fn put_long(text: &[u8], buffer: &mut [u8], at: usize)
    requires { (32 ≤ length text.now) × (at + length text.now ≤ length buffer.old) }
    ensures { buffer.new ≡ pasted buffer.old at text.now }
{
    let n = text.len();
    for j in 0..(n - 1) / 32 {
        put32(text, 32 * j, buffer, at);
    }
    put32(text, n - 32, buffer, at);
}

// The 256 bytes of the text from i on: a constant number of turns, which the compiler writes out.
fn put256(text: &[u8], i: usize, buffer: &mut [u8], at: usize)
    requires { (i + 256 ≤ length text.now) × (at + length text.now ≤ length buffer.old) }
    ensures { buffer.new ≡ pasted buffer.old (at + i) (take 256 (drop i text.now)) }
{
    for k in 0..8 {
        put32(text, i + 32 * k, buffer, at);
    }
}

// The parts of 256 bytes that a very long text has, and where they end. Only that so much is written is claimed: how much is a matter of speed alone.
pub(crate) fn put_front(text: &[u8], buffer: &mut [u8], at: usize) -> usize
    requires { at + length text.now ≤ length buffer.old }
    ensures { (buffer.new ≡ pasted buffer.old at (take result text.now)) × (result ≤ length text.now) }
{
    let parts = text.len() / 256;
    for j in 0..parts {
        put256(text, 256 * j, buffer, at);
    }
    256 * parts
}

// The whole text: under 16 bytes two parts of 8, from 16 on parts of 16.
pub(crate) fn put_parts(text: &[u8], buffer: &mut [u8], at: usize)
    requires { (8 ≤ length text.now) × (at + length text.now ≤ length buffer.old) }
    ensures { buffer.new ≡ pasted buffer.old at text.now }
{
    let n = text.len();
    if n < 16 {
        put8(text, 0, buffer, at);
        put8(text, n - 8, buffer, at);
        return;
    }
    for j in 0..(n - 1) / 16 {
        put16(text, 16 * j, buffer, at);
    }
    put16(text, n - 16, buffer, at);
}
