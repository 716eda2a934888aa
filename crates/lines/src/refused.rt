// The line of a refused image, and of an input that is longer than any image.
ghost use Rattle.std.specs.Prelude.{◌+◌, ◌≤◌, [], ◌∷◌, ◌++◌, length};
ghost use Rattle.buffers.specs.Pasting.{Written};
ghost use Rattle.refusals.specs.Refusals.{number_of, values_of};
ghost use Rattle.lines.specs.Lines.{decimal, place_text, refused_line};
ghost use Rattle.lines.specs.Parts.{Told, LongOutput};

use crate::numbers::put_number;
use buffers::given::put;
use refusals::{Refusal, number};

// Writes a word and a number.
fn put_named(word: &[u8], n: u64, buffer: &mut [u8], at: usize) -> usize
    requires { at + length (word.now ++ decimal n) ≤ length buffer.old }
    ensures { Written buffer.old at (word.now ++ decimal n) buffer.new result }
{
    let named = put(word, buffer, at);
    put_number(n, buffer, named)
}

// Writes a record's block and its place there.
fn put_record(block: u16, slot: u16, buffer: &mut [u8], at: usize) -> usize
    requires { at + 31 ≤ length buffer.old }
    ensures { Told buffer.old at (place_text 32 (block ∷ slot ∷ [])) buffer.new result }
{
    let told = put_named(b" at block ", block as u64, buffer, at);
    put_named(b" record ", slot as u64, buffer, told)
}

// Writes a word and the one value of a refusal.
fn put_value(word: &[u8], value: usize, buffer: &mut [u8], at: usize) -> usize
    requires { (length word.now ≤ 11) × (at + 31 ≤ length buffer.old) }
    ensures { Told buffer.old at (word.now ++ decimal value) buffer.new result }
{
    put_named(word, value as u64, buffer, at)
}

// Writes what is told with the refusal's number.
fn put_place(refusal: Refusal, buffer: &mut [u8], at: usize) -> usize
    requires { at + 31 ≤ length buffer.old }
    ensures { Told buffer.old at (place_text (number_of refusal) (values_of refusal)) buffer.new result }
{
    match refusal {
        Refusal::BlockCheck(b) => put_value(b" at block ", b, buffer, at),
        Refusal::ComponentRecord(b, r) | Refusal::LabelRecord(b, r) | Refusal::UserRecord(b, r) =>
            put_record(b, r, buffer, at),
        Refusal::ParentRing(g) => put_value(b" at group ", g, buffer, at),
        Refusal::UnknownName(n) | Refusal::RepeatedName(n) => put_value(
            b" at offset ",
            n,
            buffer,
            at,
        ),
        Refusal::CompaccessHolders(n) => put_value(b" holders ", n, buffer, at),
        _ => at,
    }
}

// Writes the refusal's line to the buffer's front.
pub fn refusal_line(refusal: Refusal, buffer: &mut [u8]) -> usize
    requires { 64 ≤ length buffer.old }
    ensures { Written buffer.old 0 (refused_line refusal) buffer.new result × (result ≤ 64) }
{
    let n = number(refusal);
    let numbered = put_named(b"refused ", n as u64, buffer, 0);
    let placed = put_place(refusal, buffer, numbered);
    buffer[placed] = b'\n';
    placed + 1
}

// Writes the output of an input of more than 65,536 bytes, which is one line, to the buffer's front.
pub fn long_input_line(buffer: &mut [u8]) -> usize
    requires { 64 ≤ length buffer.old }
    ensures { LongOutput buffer.new result }
{
    refusal_line(Refusal::ImageLength, buffer)
}
