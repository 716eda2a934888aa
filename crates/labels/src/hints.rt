// Where the names of a class probably stand. A list of many names first writes the place of every component down under a number made of its name,
// so that a name is mostly found by one comparison. Nothing is claimed of these places: whoever reads one compares the name there.
ghost use Rattle.std.specs.Prelude.{◌+◌, ◌*◌, ◌<◌, ◌≤◌, ◌≡◌, length};
ghost use Rattle.header.specs.Limits.{Counted};
ghost use Rattle.labels.specs.Hints.{hints_room, letters_of8};

use fields::names::name_in;
use fields::numbers::{number4, number8};
use header::contents::lower;
use header::layout::Kind;
use header::{layout, walk};

// A number below 1,021 has four places, its own and the next three.
pub type Hints = [u8; 1024];

// Five bits of each of the eight bytes from k on: a small letter and its capital have the same.
fn letters8(name: &[u8], k: usize) -> u64
    requires { k + 8 ≤ length name.now }
    ensures { result ≤ letters_of8 }
{
    number8(name, k) & 2242545357980376863
}

// The same of four bytes.
fn letters4(name: &[u8], k: usize) -> u64
    requires { k + 4 ≤ length name.now }
    ensures { result < 4294967296 }
{
    u64::from(number4(name, k) & 522133279)
}

fn letter(x: u8) -> usize
    ensures { result < 32 }
{
    usize::from(x % 32)
}

// A sum of letters as a number below 1,021, by products, as a remainder by 1,021 takes longer. The sum's halves are added, so that every letter counts.
// The first factor is 2^32 divided by the golden ratio, so that sums next to each other come to lie apart.
fn scaled(sum: u64) -> usize
    requires { sum ≤ 8 * letters_of8 }
    ensures { result < 1021 }
{
    let folded = (sum + sum / 4294967296) % 4294967296;
    let spread = folded * 2654435769 % 4294967296;
    (spread * 1021 / 4294967296) as usize
}

// The number of a name of fewer than 8 bytes.
fn short_number(name: &[u8]) -> usize
    ensures { result < 1021 }
{
    let n = name.len();
    if n == 0 {
        return 0;
    }
    if n < 4 {
        return letter(name[0]) + 3 * letter(name[n / 2]) + 23 * letter(name[n - 1]);
    }
    scaled(letters4(name, 0) + 2 * letters4(name, n - 4))
}

// A number made of every byte of a name of at most 32 bytes.
pub fn name_number(name: &[u8]) -> usize
    ensures { result < 1021 }
{
    let n = name.len();
    if n < 8 {
        return short_number(name);
    }
    let last = n - 8;
    let first_two = letters8(name, 0) + 2 * letters8(name, lower(8, last));
    let last_two = 4 * letters8(name, lower(16, last)) + letters8(name, last);
    scaled(first_two + last_two)
}

// Writes the place down at the first of four that holds 0, or at the last of them.
fn put(hints: &mut [u8], start: usize, place: u8)
    requires { start + 4 ≤ length hints.old }
    ensures { length hints.new ≡ length hints.old }
{
    let last = start + 3;
    for k in start..last {
        if hints[k] == 0 {
            hints[k] = place;
            return;
        }
    }
    hints[last] = place;
}

// The walk goes from record to record, so that nothing is divided here.
fn fill_places(image: &[u8], class: u8, hints: &mut [u8])
    requires { Counted image.now × (length hints.old ≡ hints_room) }
{
    let count = layout::class_count(image, class);
    let first = layout::class_first(image, class);
    let shape = layout::shape_of(image, Kind::Component);
    let mut here = walk::record_at(shape, first);
    for p in 0..count {
        let i = first + p;
        let rec = layout::placed_part(image, shape, Kind::Component, i, here.at);
        let number = name_number(name_in(&rec[1..32]));
        put(hints, number, p as u8);
        here = walk::next_record(shape, here, i);
    }
}

// The hints of a class, for a list of so many bytes. In a short one names are found sooner than every name of the class is written down.
pub fn fill(image: &[u8], class: u8, bytes: usize, hints: &mut Hints)
    requires { Counted image.now }
{
    if 128 < bytes {
        fill_places(image, class, hints);
    }
}
