// What a block after the header holds.
ghost use Rattle.std.specs.Prelude.{◌<◌, ◌≤◌, min, ◌≡◌, length};
ghost use Rattle.header.specs.Layout.{blocks_needed, kind_at, contents_of};

use crate::layout;
use crate::layout::{Contents, Kind};

// std's min, for the crates above.
pub fn lower(a: usize, b: usize) -> usize
    ensures { result ≡ min a b }
{
    a.min(b)
}

fn kind_at(image: &[u8], b: usize) -> Kind
    requires { 512 ≤ length image.now }
    ensures { result ≡ kind_at image.now b }
{
    if b < layout::first_block(image, Kind::Label) {
        return Kind::Component;
    }
    if b < layout::first_block(image, Kind::User) {
        return Kind::Label;
    }
    Kind::User
}

pub fn block_contents(image: &[u8], b: usize) -> Contents
    requires { (512 ≤ length image.now) × ((1 ≤ b) × (b < blocks_needed image.now)) }
    ensures { result ≡ contents_of image.now b }
{
    let kind = kind_at(image, b);
    let shape = layout::shape_of(image, kind);
    let from = shape.capacity * (b - shape.first);
    let to = shape.count.min(from + shape.capacity);
    let end = 4 + shape.size * (to - from);
    Contents {
        kind,
        from,
        to,
        end,
    }
}
