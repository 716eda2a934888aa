// The limits that an edition gives.
ghost use Rattle.std.specs.Prelude.{◌≤◌, ◌≡◌, length};
ghost use Rattle.header.specs.Limits.{limits_in, limits_of};

use crate::edition::{Edition, by_edition, edition_of};

// The most that an image may have of each, and the longest label text that is read under it.
#[derive(Clone, Copy)]
pub struct Limits {
    pub levels: usize,
    pub compartments: usize,
    pub groups: usize,
    pub users: usize,
    pub labels: usize,
    pub text: usize,
}

pub fn limits_in(edition: Edition) -> Limits
    ensures { result ≡ limits_in edition }
{
    Limits {
        levels: 32,
        compartments: 64,
        groups: by_edition(edition, 64, 256),
        users: by_edition(edition, 96, 32),
        labels: by_edition(edition, 1680, 800),
        text: by_edition(edition, 4096, 10000),
    }
}

// The longest label text that is read under the image.
pub fn text_limit(image: &[u8]) -> usize
    requires { 512 ≤ length image.now }
    ensures { result ≡ (limits_of image.now).text }
{
    limits_in(edition_of(image)).text
}
