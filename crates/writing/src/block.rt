// Blocks written into a lent buffer: head, payload, unused bytes and sums; and the header.
ghost use Rattle.std.specs.Prelude.{◌+◌, ◌/◌, ◌%◌, ◌<◌, ◌≤◌, ◌≡◌, ◌++◌, length};
ghost use Rattle.fields.specs.Bytes.{part};
ghost use Rattle.buffers.specs.Pasting.{Written};
ghost use Rattle.header.specs.Layout.{by_edition};
ghost use Rattle.writing.specs.Laid.{zeros, head_of, end_of, sealed, profile_byte, counts_from, header_block};

use blocks::frame::sums;
use buffers::given::put;
use header::edition::Edition;
use header::profile::Profile;

// Writes n zeros over the buffer's bytes from `at` on, and tells where they end.
pub fn put_zeros(buffer: &mut [u8], at: usize, n: usize) -> usize
    requires { at + n ≤ length buffer.old }
    ensures { Written buffer.old at (zeros n) buffer.new result }
{
    let end = at + n;
    for i in at..end {
        buffer[i] = 0;
    }
    end
}

// The low byte of a number.
pub fn low(x: usize) -> u8
    ensures { result ≡ x % 256 }
{
    (x % 256) as u8
}

// The high byte of a number of two bytes.
pub fn high(x: usize) -> u8
    requires { x < 65536 }
    ensures { result ≡ x / 256 }
{
    (x / 256) as u8
}

// Writes the head of a block: its kind, its number of records and its place.
pub fn put_head(kind: u8, count: u8, place: usize, buffer: &mut [u8], at: usize) -> usize
    requires { (place < 65536) × (at + 4 ≤ length buffer.old) }
    ensures { Written buffer.old at (head_of kind count place) buffer.new result }
{
    let head = [kind, count, low(place), high(place)];
    put(&head, buffer, at)
}

// Writes what follows the n used bytes of a block, which stand at `at` already: zeros and the two sums. The zeros go up to the block's end, so that
// the sums read no byte that was not written before; the sums then stand over the last two.
pub fn put_end(buffer: &mut [u8], at: usize, n: usize) -> usize
    requires { (n ≤ 510) × (at + 512 ≤ length buffer.old) }
    ensures { Written buffer.old (at + n) (end_of (part buffer.old at n)) buffer.new result }
{
    put_zeros(buffer, at + n, 512 - n);
    let found = sums(&buffer[at..at + 512]);
    let a = found.a as u8;
    let b = found.b as u8;
    let check = [a, b];
    put(&check, buffer, at + 510)
}

// Writes a block: its head, its payload, unused bytes and sums.
pub fn put_block(
    kind: u8,
    count: u8,
    place: usize,
    payload: &[u8],
    buffer: &mut [u8],
    at: usize,
) -> usize
    requires { (place < 65536) × ((length payload.now ≤ 506) × (at + 512 ≤ length buffer.old)) }
    ensures { Written buffer.old at (sealed (head_of kind count place ++ payload.now)) buffer.new result }
{
    let start = put_head(kind, count, place, buffer, at);
    let end = put(payload, buffer, start);
    put_end(buffer, at, end - at)
}

// The byte that tells a profile.
fn profile_byte(profile: Profile) -> u8
    ensures { result ≡ profile_byte profile }
{
    match profile {
        Profile::Tree => 0,
        Profile::Release => 1,
    }
}

// Writes the header: the edition, the profile, and how many there are of each. The number of groups is one byte among the other counts in edition 1,
// and two bytes behind the profile in edition 2; those that the edition does not use are zeros, as all unused bytes of a block.
// The documents name this function and its clause, so its counts stay parameters of their own.
pub fn put_header(
    edition: Edition,
    profile: Profile,
    levels: u8,
    compartments: u8,
    groups: usize,
    users: usize,
    labels: usize,
    buffer: &mut [u8],
    at: usize,
) -> usize
    requires groups_bound { (groups < by_edition edition 256 65536) × ((users < 65536) × (labels < 65536)) }
    requires at_in_bounds { at + 512 ≤ length buffer.old }
    ensures { Written buffer.old at (header_block (counts_from edition profile levels compartments groups) users labels) buffer.new result }
{
    let (number, among, behind) = match edition {
        Edition::One => (1, groups as u8, 0),
        Edition::Two => (2, 0, groups),
    };
    let fields = [
        number,
        levels,
        compartments,
        among,
        low(users),
        high(users),
        low(labels),
        high(labels),
        profile_byte(profile),
        0,
        low(behind),
        high(behind),
    ];
    put_block(80, 0, 0, &fields, buffer, at)
}
