// The header's rules, and whether the length fits its counts.
ghost use Rattle.std.specs.Prelude.{◌*◌, ◌≤◌, ◌≡◌, length};
ghost use Rattle.header.specs.Header.{known_edition, known_profile, counts_within, counts_rule, unused_rule, header_rule, fit_rule};

use crate::counts::{Counts, counts_of};
use crate::edition::{Edition, edition_of};
use crate::layout;
use crate::limits::limits_in;
use fields::numbers::all_zero;

// The edition is 1 or 2.
pub fn known_edition(byte: u8) -> bool
    ensures { result ≡ known_edition byte }
{
    (byte == 1) | (byte == 2)
}

// The profile is 0 or 1.
pub fn known_profile(byte: u8) -> bool
    ensures { result ≡ known_profile byte }
{
    byte <= 1
}

// No count is past its limit, and there is a level.
pub fn counts_within(counts: Counts, users: usize, labels: usize) -> bool
    ensures { result ≡ counts_within counts users labels }
{
    let limits = limits_in(counts.edition);
    (1 <= counts.levels)
        & (counts.levels <= limits.levels)
        & (counts.compartments <= limits.compartments)
        & (counts.groups <= limits.groups)
        & (users <= limits.users)
        & (labels <= limits.labels)
}

fn counts_ok(image: &[u8]) -> bool
    requires { 512 ≤ length image.now }
    ensures { result ≡ counts_rule image.now }
{
    counts_within(
        counts_of(image),
        layout::users(image),
        layout::labels(image),
    )
}

fn unused_ok(image: &[u8], edition: Edition) -> bool
    requires { 512 ≤ length image.now }
    ensures { result ≡ unused_rule edition image.now }
{
    match edition {
        Edition::One => all_zero(&image[13..510]),
        Edition::Two => { (image[7] == 0) & all_zero(&image[13..14]) & all_zero(&image[16..510]) }
    }
}

pub fn header_ok(image: &[u8]) -> bool
    requires { 512 ≤ length image.now }
    ensures { result ≡ header_rule image.now }
{
    (image[0] == 80)
        & (image[1] == 0)
        & known_edition(image[4])
        & known_profile(image[12])
        & counts_ok(image)
        & unused_ok(image, edition_of(image))
}

pub fn fit_ok(image: &[u8]) -> bool
    requires { 512 ≤ length image.now }
    ensures { result ≡ fit_rule image.now }
{
    image.len() == 512 * layout::blocks_needed(image)
}
