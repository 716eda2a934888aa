// An order of the groups in which each parent stands before its children, and by it the lowest group whose parents never end. Each group
// that has no place yet begins a walk along the parents, up to a group that has one or to none. The groups of the walk get the next places,
// the last of them the first. A walk that is longer than there are groups never ends. All groups before the one that begins it ended.
ghost use Rattle.std.specs.Prelude.{ℕ, ◌-◌, ◌≤◌, ◌<◌, ◌≡◌, length, get_or};
ghost use Rattle.hierarchy.specs.Forest.{table_room, table_length, parent_by};
ghost use Rattle.hierarchy.specs.Paths.{Passes, Differ, Placed, OrderFound};

use crate::table::Table;
use fields::numbers::number2;

// One more than each group's place; 0 where it has none.
const NO_PLACES: [u16; 256] = [0u16; 256];

// How many groups the walk from g passes. One that never ends is broken off.
fn walk_length(count: usize, table: &[u8], places: &[u16], g: usize) -> usize
    requires { (count ≤ table_room) × ((length table.now ≡ table_length) × (length places.now ≡ table_room)) }
    ensures { Passes count (parent_by table.now) places.now g result }
{
    let mut at = g;
    for n in 0..count + 1 {
        if at >= count {
            return n;
        }
        if places[at] != 0 {
            return n;
        }
        at = number2(table, 2 * at) as usize;
    }
    count + 1
}

// Gives the groups of the walk from g the places from `from` up to `end`.
fn put_walk(table: &mut [u8], places: &mut [u16], g: usize, from: usize, end: usize)
    requires table_len { (length table.old ≡ table_length) × (length places.old ≡ table_room) }
    requires from_le_end { (from ≤ end) × ((end ≤ table_room) × Differ table_room (parent_by table.old) g (end - from)) }
    ensures { Placed (parent_by table.old) g from end table.old places.old table.new places.new }
{
    let mut at = g;
    for i in (from..end).rev() {
        table[512 + i] = at as u8;
        places[at] = (i + 1) as u16;
        at = number2(table, 2 * at) as usize;
    }
}

// Gives every group its place, walk by walk. Gives the lowest group whose parents never end; the number of groups where there is none.
fn place_all(count: usize, table: &mut [u8], places: &mut [u16]) -> usize
    requires count_le_table_room { (count ≤ table_room) × ((length table.old ≡ table_length) × (length places.old ≡ table_room)) }
    requires by_index { (g : ℕ) → g < count → get_or places.old g 0 ≡ 0 }
    ensures { OrderFound count table.old table.new result }
{
    let mut end = 0;
    for g in 0..count {
        let n = walk_length(count, table, places, g);
        if n > count {
            return g;
        }
        put_walk(table, places, g, end, end + n);
        end += n;
    }
    count
}

// Puts the order of the groups into the table, which has their parents. Gives the lowest group whose parents never end; the number of groups
// where there is none.
pub fn put_order(count: usize, table: &mut Table) -> usize
    requires { count ≤ table_room }
    ensures { OrderFound count table.old table.new result }
{
    let mut places = NO_PLACES;
    place_all(count, table, &mut places)
}
