// Names: their alphabet, the field that holds one, equality, order, and small letters taken as capitals.
ghost use Rattle.std.specs.Prelude.{◌≡◌, length};
ghost use Rattle.fields.specs.Names.{name_byte, name_in, same_bytes, small_letter, in_letters, name_before};

use crate::folded::same_folded;
use crate::same::{same_bytes, same_words};

// A..Z, 0..9 and underscore; most are letters, so those leave first.
#[tactic(auto, unfolding(crate::specs::Names::name_byte))]
pub fn name_byte(x: u8) -> bool
    ensures { result ≡ name_byte x }
{
    if x.is_ascii_uppercase() {
        return true;
    }
    x.is_ascii_digit() | (x == b'_')
}

// The name that a field of 31 bytes holds; a length past the field gives what the field has.
pub fn name_in(field: &[u8]) -> &[u8]
    requires { length field.now ≡ 31 }
    ensures { result.now ≡ name_in field.now }
{
    let n = field[0] as usize;
    if 30 < n {
        return &field[1..31];
    }
    &field[1..1 + n]
}

pub fn same_name(a: &[u8], b: &[u8]) -> bool
    ensures { result ≡ same_bytes a.now b.now }
{
    if a.len() != b.len() {
        return false;
    }
    if a.len() < 8 {
        return same_bytes(a, b);
    }
    same_words(a, b)
}

// In which letters a name is compared with an image's: in its own, or, if it stands in a label's text, with small ones taken as capitals.
#[derive(Clone, Copy)]
pub enum Letters {
    Exact,
    Folded,
}

// a..z
#[tactic(auto, unfolding(crate::specs::Names::small_letter))]
pub fn small_letter(x: u8) -> bool
    ensures { result ≡ small_letter x }
{
    x.is_ascii_lowercase()
}

// Is b, in those letters, the name a?
pub fn same_in(letters: Letters, a: &[u8], b: &[u8]) -> bool
    ensures { result ≡ same_bytes a.now (in_letters letters b.now) }
{
    match letters {
        Letters::Exact => same_name(a, b),
        Letters::Folded => same_folded(a, b),
    }
}

// The first name comes before the second in byte order: the first bytes that differ decide or, if one name begins the other, the lengths.
pub fn name_before(a: &[u8], b: &[u8]) -> bool
    ensures { result ≡ name_before a.now b.now }
{
    let m = a.len().min(b.len());
    for i in 0..m {
        if a[i] != b[i] {
            return a[i] < b[i];
        }
    }
    m < b.len()
}
