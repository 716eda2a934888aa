// Sets of groups in a record.
ghost use Rattle.std.specs.Prelude.{◌≡◌, ◌+◌, ◌≤◌, length};
ghost use Rattle.sets.specs.Groups.{places_of};
ghost use Rattle.sets.specs.Sets.{within};
ghost use Rattle.header.specs.Layout.{by_edition};
ghost use Rattle.records.specs.Fields.{groups_at};

use fields::numbers::number8;
use header::edition::Edition;
use sets::groups::Groups;
use sets::word;

// The set of groups in the bytes from k on: eight of them, in edition 2 thirty-two.
pub fn group_set(edition: Edition, rec: &[u8], k: usize) -> Groups
    requires { k + by_edition edition 8 32 ≤ length rec.now }
    ensures { places_of result ≡ groups_at edition rec.now k }
{
    match edition {
        Edition::One => Groups::of_word(number8(rec, k)),
        Edition::Two => {
            let second = k + 8;
            let third = second + 8;
            let fourth = third + 8;
            Groups::of_words(
                number8(rec, k),
                number8(rec, second),
                number8(rec, third),
                number8(rec, fourth),
            )
        }
    }
}

// Does the set of groups in the bytes from k on name only those of `all`? It is tested word by word, without being made.
pub fn groups_exist(edition: Edition, rec: &[u8], k: usize, all: Groups) -> bool
    requires { k + by_edition edition 8 32 ≤ length rec.now }
    ensures { result ≡ within (groups_at edition rec.now k) (places_of all) }
{
    match edition {
        Edition::One => word::within(number8(rec, k), all.word(0)),
        Edition::Two => {
            let second = k + 8;
            let third = second + 8;
            let fourth = third + 8;
            if !word::within(number8(rec, k), all.word(0)) {
                return false;
            }
            if !word::within(number8(rec, second), all.word(1)) {
                return false;
            }
            if !word::within(number8(rec, third), all.word(2)) {
                return false;
            }
            word::within(number8(rec, fourth), all.word(3))
        }
    }
}
