// The table of parents and of the order of the groups, and by it what lies below a set of groups. `count` is the number of groups.
ghost use Rattle.std.specs.Prelude.{◌≤◌, ◌<◌, ◌≡◌, length};
ghost use Rattle.sets.specs.Groups.{places_of};
ghost use Rattle.sets.specs.Sets.{within, all_below};
ghost use Rattle.header.specs.Limits.{Counted};
ghost use Rattle.hierarchy.specs.Forest.{below_in, table_room, table_length, parent_by, forest_by, order_at, OrderedBy};
ghost use Rattle.hierarchy.specs.Below.{Parents, AllEnd, Tabled, RingFound};

use crate::order::put_order;
use fields::numbers::number2;
use header::edition::edition_of;
use header::layout::Kind;
use header::{layout, walk};
use records::components::parent_in;
use sets::groups::Groups;
use sets::word;

// The parent's place of every group in two bytes, and from byte 512 on the groups in an order, in one byte each. Bytes, as
// `parent_by` and `order_at` of specs/Forest.antt speak of a list of bytes, and by them the contracts of all crates that have such a table.
pub type Table = [u8; 768];

// A table before it is filled.
pub const EMPTY: Table = [0u8; 768];

// The parent's place that the table holds for g.
pub(crate) fn stored(table: &Table, g: usize) -> usize
    requires { g < table_room }
    ensures { result ≡ parent_by table.now g }
{
    number2(table, 2 * g) as usize
}

// The group at place i of the order.
pub(crate) fn ordered(table: &Table, i: usize) -> usize
    requires { i < table_room }
    ensures { result ≡ order_at table.now i }
{
    usize::from(table[512 + i])
}

// Puts the parent's place of every group into the places. The walk goes from record to record, so that nothing is divided here.
fn fill_places(image: &[u8], places: &mut [u8])
    requires { Counted image.now × (length places.old ≡ table_length) }
    ensures { Parents image.now places.new }
{
    let edition = edition_of(image);
    let count = layout::groups(image);
    let first = layout::class_first(image, 3);
    let shape = layout::shape_of(image, Kind::Component);
    let mut here = walk::record_at(shape, first);
    for g in 0..count {
        let i = first + g;
        let rec = layout::placed_part(image, shape, Kind::Component, i, here.at);
        let parent = parent_in(edition, rec);
        places[2 * g] = (parent % 256) as u8;
        places[2 * g + 1] = (parent / 256) as u8;
        here = walk::next_record(shape, here, i);
    }
}

// Puts the parent's place of every group into the table.
fn fill_parents(image: &[u8], table: &mut Table)
    requires { Counted image.now }
    ensures { Parents image.now table.new }
{
    fill_places(image, table)
}

// Fills the table. Gives the lowest group whose parents never end; the number of groups where there is none.
pub fn first_ring(image: &[u8], table: &mut Table) -> usize
    requires { Counted image.now }
    ensures { RingFound image.now table.new result }
{
    fill_parents(image, table);
    put_order(layout::groups(image), table)
}

// Fills the table of an image in which the parents of every group end.
pub fn fill(image: &[u8], table: &mut Table)
    requires { Counted image.now × AllEnd image.now }
    ensures { Tabled image.now table.new }
{
    first_ring(image, table);
}

// s with every group that has an ancestor in s, where one word holds every group. Each parent stands before its children in the order, so that one
// pass tells of every group.
fn below_in_word(count: usize, table: &Table, s: u64) -> u64
    requires { OrderedBy count table.now × (count ≤ 64) }
    ensures { result ≡ below_in (forest_by count table.now) s }
{
    let mut groups = word::intersection(s, word::all_below(count));
    for i in 0..count {
        let g = ordered(table, i);
        let p = stored(table, g);
        if p < count {
            if word::has(groups, p) {
                groups = word::with(groups, g);
            }
        }
    }
    groups
}

// The same for any number of groups. The set is kept as its words, which is quicker than as one value. One loop for both would need a trait of sets
// with its laws and an impl for each of the two, which is longer than this loop.
fn below_in_words(count: usize, table: &Table, s: Groups) -> Groups
    requires { OrderedBy count table.now }
    ensures { places_of result ≡ below_in (forest_by count table.now) (places_of s) }
{
    let groups = s.intersection(Groups::all_below(count));
    let mut words = [
        groups.word(0),
        groups.word(1),
        groups.word(2),
        groups.word(3),
    ];
    for i in 0..count {
        let g = ordered(table, i);
        let p = stored(table, g);
        if p < count {
            if word::has(words[p / 64], p % 64) {
                words[g / 64] = word::with(words[g / 64], g % 64);
            }
        }
    }
    Groups::of_words(words[0], words[1], words[2], words[3])
}

// s with every group that has an ancestor in s.
pub fn below(count: usize, table: &Table, s: Groups) -> Groups
    requires { OrderedBy count table.now }
    ensures { places_of result ≡ below_in (forest_by count table.now) (places_of s) }
{
    if count <= 64 {
        return Groups::of_word(below_in_word(count, table, s.word(0)));
    }
    below_in_words(count, table, s)
}

// Does every group of `set` lie below `other`? Mostly they are in `other` themselves. `all` are all groups.
pub fn lies_below(count: usize, table: &Table, all: Groups, set: Groups, other: Groups) -> bool
    requires { OrderedBy count table.now × (places_of all ≡ all_below count) }
    ensures { result ≡ within (places_of set) (below_in (forest_by count table.now) (places_of other)) }
{
    if set.within(other.intersection(all)) {
        return true;
    }
    set.within(below(count, table, other))
}
