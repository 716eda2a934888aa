// The profile of an image, which its group rules depend on.
ghost use Rattle.std.specs.Prelude.{◌≤◌, ◌≡◌, length};
ghost use Rattle.header.specs.Layout.{profile_named, profile_of};

#[derive(Clone, Copy, PartialEq, Eq)]
pub enum Profile {
    // Groups may have parents, and a group reaches all that lie below it.
    Tree,
    // A row's groups are those that it may be released to.
    Release,
}

// The profile that a byte names. It is no From<u8>, as only 0 and 1 name one: the rule is this function's, and its name stands at each use.
pub fn profile_named(byte: u8) -> Profile
    ensures { result ≡ profile_named byte }
{
    if byte == 1 {
        Profile::Release
    } else {
        Profile::Tree
    }
}

pub fn profile_of(image: &[u8]) -> Profile
    requires { 512 ≤ length image.now }
    ensures { result ≡ profile_of image.now }
{
    profile_named(image[12])
}
