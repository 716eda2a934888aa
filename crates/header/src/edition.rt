// The edition of an image, which its layout and its limits depend on.
ghost use Rattle.std.specs.Prelude.{◌≤◌, ◌≡◌, length};
ghost use Rattle.header.specs.Layout.{edition_named, edition_of, by_edition};

#[derive(Clone, Copy, PartialEq, Eq)]
pub enum Edition {
    One,
    Two,
}

// The edition that a byte names. It is no From<u8>, as only 1 and 2 name one: the rule is this function's, and its name stands at each use.
pub fn edition_named(byte: u8) -> Edition
    ensures { result ≡ edition_named byte }
{
    if byte == 2 {
        Edition::Two
    } else {
        Edition::One
    }
}

pub fn edition_of(image: &[u8]) -> Edition
    requires { 512 ≤ length image.now }
    ensures { result ≡ edition_of image.now }
{
    edition_named(image[4])
}

// A number that differs between the editions.
pub fn by_edition(edition: Edition, one: usize, two: usize) -> usize
    ensures { result ≡ by_edition edition one two }
{
    match edition {
        Edition::One => one,
        Edition::Two => two,
    }
}
