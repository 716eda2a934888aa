// The lists of a label's text. The text handed in ends where the list ends, so that offsets count from the text's start.
ghost use Rattle.std.specs.Prelude.{◌+◌, ◌≤◌, ◌≡◌, length, drop};
ghost use Rattle.sets.specs.Words.{joined};
ghost use Rattle.image.specs.Check.{IsAccepted};
ghost use Rattle.labels.specs.Text.{comma, split};
ghost use Rattle.labels.specs.Parse.{read_names, read_list};
ghost use Rattle.labels.specs.Lists.{until_mark, after_mark, names_of, list_of};

use crate::answers::Reason;
use crate::hints::{Hints, fill};
use crate::names::find_by;
use crate::scan::{Lacks, first_stop};
use sets::groups::Groups;
use sets::word;

// The words of the set of the places of names that are read.
type Words = [u64; 4];

// What its names give: all are read, or the offset of the leftmost that is unknown or came before. It is two words, which come back in registers. A
// `Result<(), Reason>` is three, and takes 112 bytes of stack for each name of a list, in place of 80.
#[derive(Clone, Copy)]
pub enum Names {
    Read,
    Unknown(usize),
    Repeated(usize),
}

// The set of the places that were read is kept as its words.
fn list_read(names: Names, words: &[u64]) -> Result<Groups, Reason>
    requires { length words.now ≡ 4 }
    ensures { list_of result ≡ names_of names (joined words.now) }
{
    match names {
        Names::Read => Ok(Groups::of_words(words[0], words[1], words[2], words[3])),
        Names::Unknown(offset) => Err(Reason::Unknown(offset)),
        Names::Repeated(offset) => Err(Reason::Repeated(offset)),
    }
}

// The first place from `at` on that holds the mark; the text's length where none does.
pub fn mark_from(text: &[u8], at: usize, mark: u8) -> usize
    requires { at ≤ length text.now }
    ensures { (result ≡ at + until_mark mark (drop at text.now)) × ((at ≤ result) × (result ≤ length text.now)) }
{
    first_stop(Lacks { mark }, text, at)
}

// A list is one name, or one name, a comma and a list. `words` have the names before this one.
#[cycle(names)]
fn read_names(
    image: &[u8],
    class: u8,
    text: &[u8],
    at: usize,
    hints: &Hints,
    words: &mut Words,
) -> Names
    requires { IsAccepted image.now × (((1 ≤ class) × (class ≤ 3)) × ((at ≤ length text.now) × (length words.old ≡ 4))) }
    ensures words_after { names_of result (joined words.new) ≡ read_names image.now class at (joined words.old) (split comma (drop at text.now)) }
    ensures words_len { length words.new ≡ 4 }
{
    let end = mark_from(text, at, b',');
    let Some(place) = find_by(image, class, hints, &text[at..end]) else {
        return Names::Unknown(at);
    };
    let w = words[place / 64];
    if word::has(w, place % 64) {
        return Names::Repeated(at);
    }
    words[place / 64] = word::with(w, place % 64);
    after_name(image, class, text, end, hints, words)
}

// After a name the list ends, or a comma and a list follow. It is never inlined: inlined, a name takes 96 bytes of stack.
#[cycle(names)]
#[inline(never)]
fn after_name(
    image: &[u8],
    class: u8,
    text: &[u8],
    at: usize,
    hints: &Hints,
    words: &mut Words,
) -> Names
    requires { IsAccepted image.now × (((1 ≤ class) × (class ≤ 3)) × ((at ≤ length text.now) × (length words.old ≡ 4))) }
    ensures words_after { names_of result (joined words.new) ≡ read_names image.now class (at + 1) (joined words.old) (after_mark comma text.now at) }
    ensures words_len { length words.new ≡ 4 }
{
    if at < text.len() {
        return read_names(image, class, text, at + 1, hints, words);
    }
    Names::Read
}

// The list from `at` on; one that is empty gives the empty set.
pub fn read_list(image: &[u8], class: u8, text: &[u8], at: usize) -> Result<Groups, Reason>
    requires { IsAccepted image.now × (((1 ≤ class) × (class ≤ 3)) × (at ≤ length text.now)) }
    ensures { list_of result ≡ read_list image.now class at (drop at text.now) }
{
    if at < text.len() {
        let mut hints = [0u8; 1024];
        let mut words = [0u64; 4];
        fill(image, class, text.len() - at, &mut hints);
        let names = read_names(image, class, text, at, &hints, &mut words);
        return list_read(names, &words);
    }
    Ok(Groups::none())
}
