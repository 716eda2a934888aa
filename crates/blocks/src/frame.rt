// The length of an image, and the check and place of each of its blocks.
ghost use Rattle.std.specs.Prelude.{◌≡◌, ◌+◌, ◌*◌, ◌%◌, ◌<◌, ◌≤◌, length};
ghost use Rattle.fields.specs.Bytes.{byte_at};
ghost use Rattle.blocks.specs.Blocks.{length_rule, sums_of, check_rule, place_rule, block_rule, first_bad_block};

use crate::columns::{half_columns, join};
use fields::numbers::number2;

// The length is not 0, a multiple of 512 and at most 65,536.
pub fn length_ok(image: &[u8]) -> bool
    ensures { result ≡ length_rule image.now }
{
    let n = image.len();
    (0 < n) & (n % 512 == 0) & (n <= 65536)
}

// The two sums of a block, each below 255.
#[derive(Clone, Copy)]
pub struct Checksum {
    pub a: u32,
    pub b: u32,
}

// The columns of both halves together. The last two bytes are no part of the sums: in the second, byte 510 counts no times and byte 511 once
// less than that.
pub fn sums(block: &[u8]) -> Checksum
    requires { length block.now ≡ 512 }
    ensures { result ≡ sums_of block.now }
{
    let all = join(half_columns(&block[0..256]), half_columns(&block[256..512]));
    let x = u32::from(block[510]);
    let y = u32::from(block[511]);
    Checksum {
        a: (all.once - x - y) % 255,
        b: (all.often + y) % 255,
    }
}

fn check_ok(block: &[u8]) -> bool
    requires { length block.now ≡ 512 }
    ensures { result ≡ check_rule block.now }
{
    let found = sums(block);
    (u32::from(block[510]) == found.a) & (u32::from(block[511]) == found.b)
}

fn place_ok(block: &[u8], place: usize) -> bool
    requires { length block.now ≡ 512 }
    ensures { result ≡ place_rule block.now place }
{
    number2(block, 2) as usize == place
}

fn block_ok(image: &[u8], b: usize) -> bool
    requires { 512 * b + 512 ≤ length image.now }
    ensures { result ≡ block_rule image.now b }
{
    let at = 512 * b;
    let block = &image[at..at + 512];
    check_ok(block) & place_ok(block, b)
}

// The lowest block whose check or place is wrong; the number of blocks where there is none.
pub fn first_bad_block(image: &[u8]) -> usize
    requires { length image.now % 512 ≡ 0 }
    ensures { result ≡ first_bad_block image.now }
{
    let count = image.len() / 512;
    for b in 0..count {
        if !block_ok(image, b) {
            return b;
        }
    }
    count
}
