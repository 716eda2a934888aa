// A number in decimal.
ghost use Rattle.std.specs.Prelude.{◌+◌, ◌≤◌, length};
ghost use Rattle.buffers.specs.Pasting.{Written};
ghost use Rattle.lines.specs.Lines.{decimal};

use buffers::given::put;

// Writes the number in decimal, without leading zeros.
pub fn put_number(n: u64, buffer: &mut [u8], at: usize) -> usize
    requires { at + length (decimal n) ≤ length buffer.old }
    ensures { Written buffer.old at (decimal n) buffer.new result }
{
    let mut text = [0u8; 20];
    let count = io::decimal(n, &mut text);
    put(&text[..count], buffer, at)
}
