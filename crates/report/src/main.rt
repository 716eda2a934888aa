// Reads a policy image from standard input and writes its report to standard output: a line `NAME TAG rw` for each user and each
// label record, or one line with the refusal. Which bytes each part has, where the next one begins and which is the last is proved in
// `lines`; this program only moves bytes.

#![tactic(auto)]

ghost use Rattle.std.specs.Prelude.{◌≤◌, length, IsSome, IfOk};
ghost use Rattle.hierarchy.specs.Below.{Tabled};
ghost use Rattle.image.specs.Check.{IsAccepted};
ghost use Rattle.lines.specs.Parts.{steps_at, steps_after};

use hierarchy::table;
use hierarchy::table::Table;
use lines::parts::{Cursor, Part, first_part, next_part};
use lines::refused::long_input_line;
use std::io;
use std::io::Read;

fn write_front(rt: &impl Print, text: &[u8], n: usize) -> io::Result<()>
    requires { n ≤ length text.now }
{
    rt.write_all(&text[..n])
}

// The part, and whether it could be written. What is promised of the part holds in both cases.
fn write_first(rt: &impl Print, image: &[u8], table: &mut Table) -> (Part, io::Result<()>)
    ensures { IsSome result.0.next → IsAccepted image.now × Tabled image.now table.new }
{
    let mut text = [0u8; 64];
    let part = first_part(image, table, &mut text);
    let written = write_front(rt, &text, part.length);
    (part, written)
}

fn write_next(rt: &impl Print, image: &[u8], table: &Table, from: Cursor) -> (Part, io::Result<()>)
    requires { IsAccepted image.now × Tabled image.now table.now }
    ensures { steps_after image.now result.0 ≤ steps_at image.now from }
{
    let mut text = [0u8; 8192];
    let part = next_part(image, table, from, &mut text);
    let written = write_front(rt, &text, part.length);
    (part, written)
}

// Part after part, up to the first that cannot be written.
fn write_output(rt: &impl Print, image: &[u8]) -> io::Result<()> {
    let mut table = table::EMPTY;
    let (mut part, first) = write_first(rt, image, &mut table);
    first?;
    while let Some(from) = part.next {
        let (next, written) = write_next(rt, image, &table, from);
        written?;
        part = next;
    }
    Ok(())
}

fn write_long_input_line(rt: &impl Print) -> io::Result<()> {
    let mut text = [0u8; 64];
    let n = long_input_line(&mut text);
    write_front(rt, &text, n)
}

// Reads until the buffer is full or the input ends, and tells how many bytes then stand at the buffer's front.
fn read_full(input: &mut impl Read, buffer: &mut [u8]) -> io::Result<usize>
    ensures { IfOk result (λ n. n ≤ length buffer.new) }
{
    let mut done = 0;
    // no counted loop: each turn moves on by what its read gives
    while done < buffer.len() {
        let n = input.read(&mut buffer[done..])?;
        if n == 0 {
            break;
        }
        done += n;
    }
    Ok(done)
}

// Reads on past the bytes that were read: 0 at the input's end, and 1 where there is more.
fn read_past(input: &mut impl Read) -> io::Result<usize> {
    let mut next = [0u8; 1];
    input.read(&mut next)
}

// A read that fails, or that stops before the input's end, is no image: it gives no report.
fn main(rt: HostRuntime) -> io::Result<()> {
    let mut image = [0; 65536];
    let mut input = rt.stdin();
    if let Ok(n) = read_full(&mut input, &mut image) {
        if let Ok(past) = read_past(&mut input) {
            if past == 0 {
                return write_output(&rt, &image[..n]);
            }
            if n == 65536 {
                return write_long_input_line(&rt);
            }
        }
    }
    eprintln!(rt; "read failed")
}
