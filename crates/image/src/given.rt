// Look-ups for the crates above, once the image is known to be accepted. Counts and the fields of records are asked of
// `records`, ancestors and below of `hierarchy`. A number and no Option is the answer, since `label_of_tag` and `user_of_name` of specs/Lookup,
// which theorems name, give the number of records where none is found.
ghost use Rattle.std.specs.Prelude.{◌≤◌, ◌≡◌, length};
ghost use Rattle.fields.specs.Names.{same_bytes};
ghost use Rattle.records.specs.Fields.{user_name};
ghost use Rattle.header.specs.Limits.{Counted};
ghost use Rattle.image.specs.Check.{IsAccepted};
ghost use Rattle.image.specs.Lookup.{label_of_tag, user_of_name};
ghost use Rattle.image.specs.Search.{search_tag};

use fields::names::{name_in, same_name};
use header::layout::Kind;
use header::{layout, walk};
use records::labels::tag_at;

// The label record that carries the tag; the number of labels where none is found. There are at most 11 turns. Each looks
// at the middle of the places that are left, reads at most that one record, and leaves the half after it or the half
// before it. Labels are records in bytes, so no slice has a search for them, and the theorem of the 11 steps names these.
fn search_tag(image: &[u8], tag: u32) -> usize
    requires { Counted image.now }
    ensures { result ≡ search_tag image.now tag }
{
    let shape = layout::shape_of(image, Kind::Label);
    let count = shape.count;
    let mut low = 0;
    for left in (0..11usize).rev() {
        let middle = low + (1usize << left) - 1;
        if middle < count {
            let found = tag_at(image, shape, middle);
            if found < tag {
                low = middle + 1;
            } else if found == tag {
                return middle;
            }
        }
    }
    count
}

// The label record that carries the tag; the number of labels where none does.
pub fn label_of_tag(image: &[u8], tag: u32) -> usize
    requires { IsAccepted image.now }
    ensures { result ≡ label_of_tag image.now tag }
{
    search_tag(image, tag)
}

// Does the record hold the user of that name?
fn is_user(rec: &[u8], name: &[u8]) -> bool
    requires { 128 ≤ length rec.now }
    ensures { result ≡ same_bytes (user_name rec.now) name.now }
{
    same_name(name_in(&rec[0..31]), name)
}

// The user record that has the name; the number of users where none has. The walk goes from record to record, and
// divides only where it begins.
pub fn user_of_name(image: &[u8], name: &[u8]) -> usize
    requires { Counted image.now }
    ensures { result ≡ user_of_name image.now name.now }
{
    let shape = layout::shape_of(image, Kind::User);
    let mut here = walk::record_at(shape, 0);
    for u in 0..shape.count {
        let rec = layout::placed_part(image, shape, Kind::User, u, here.at);
        if is_user(rec, name) {
            return u;
        }
        here = walk::next_record(shape, here, u);
    }
    shape.count
}
