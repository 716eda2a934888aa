// Users who hold COMPACCESS.
ghost use Rattle.std.specs.Prelude.{◌+◌, ◌<◌, ◌≤◌, ◌≡◌, count_by, length};
ghost use Rattle.std.specs.List.{range_with_len};
ghost use Rattle.buffers.specs.Pasting.{Written};
ghost use Rattle.header.specs.Layout.{users};
ghost use Rattle.header.specs.Limits.{Counted};
ghost use Rattle.moves.specs.Holders.{is_holder, holder_at, holders};
ghost use Rattle.buffers.specs.Filling.{written_to};

use buffers::given::put;
use header::layout;
use records::users::privileges;
use refusals::Refusal;
use sets::word;

// Has the user at place u the bit?
fn is_holder(image: &[u8], u: usize) -> bool
    requires { Counted image.now × (u < users image.now) }
    ensures { result ≡ is_holder image.now u }
{
    word::has(privileges(image, u) as u64, 2)
}

pub(crate) fn holder_count(image: &[u8]) -> usize
    requires { Counted image.now }
    ensures { result ≡ count_by (is_holder image.now) (range_with_len 0 (users image.now)) }
{
    let count = layout::users(image);
    (0..count).filter(|u| is_holder(image, *u)).count()
}

// Writes the place u, if that user has the bit, and tells where it ends.
fn put_holder(image: &[u8], u: usize, buffer: &mut [u8], at: usize) -> usize
    requires counted { Counted image.now × (u < users image.now) }
    requires u_in_bounds { at + length (holder_at image.now u) ≤ length buffer.old }
    ensures { Written buffer.old at (holder_at image.now u) buffer.new result }
{
    if !is_holder(image, u) {
        return at;
    }
    put(&[u as u8], buffer, at)
}

// Writes their places to the front of the buffer, and tells how many.
fn put_holders(image: &[u8], buffer: &mut [u8]) -> usize
    requires { Counted image.now × (length (holders image.now) ≤ length buffer.old) }
    ensures { Written buffer.old 0 (holders image.now) buffer.new result }
{
    let count = layout::users(image);
    let mut end = 0;
    for u in 0..count {
        end = put_holder(image, u, buffer, end);
    }
    end
}

// Refusal: 13.
pub(crate) fn list_accepted(image: &[u8], buffer: &mut [u8]) -> Result<usize, Refusal>
    requires { Counted image.now }
    ensures { (result, buffer.new) ≡ written_to buffer.old (holders image.now) }
{
    if buffer.len() < holder_count(image) {
        return Err(Refusal::Room);
    }
    let count = put_holders(image, buffer);
    Ok(count)
}
