// Sets of groups in rows, from which they are turned over to one row for each group. The set at place b is in the rows b, b + 64, b + 128
// and b + 192, a word in each.
ghost use Rattle.std.specs.Prelude.{◌≤◌, ◌<◌, ◌≡◌, length};
ghost use Rattle.sets.specs.Groups.{places_of};
ghost use Rattle.sets.specs.Sets.{union, within};
ghost use Rattle.fields.specs.Scan.{first_bad};
ghost use Rattle.hierarchy.specs.Forest.{table_room, forest_by, OrderedBy};
ghost use Rattle.hierarchy.specs.Below.{of_sets};
ghost use Rattle.hierarchy.specs.SetRows.{SetPut, UserPut, Turned, RowsFit, rows_rule};

use crate::columns::lowest_bad;
use crate::table::Table;
use records::users::GroupSets;
use sets::groups::Groups;
use sets::transposed::transpose;

// Rows before they are filled.
pub const EMPTY: [u64; 256] = [0u64; 256];

// Puts a set at place b.
fn put_set(rows: &mut [u64], b: usize, s: Groups)
    requires { (length rows.old ≡ table_room) × (b < 64) }
    ensures { SetPut b (places_of s) rows.old rows.new }
{
    rows[b] = s.word(0);
    rows[b + 64] = s.word(1);
    rows[b + 128] = s.word(2);
    rows[b + 192] = s.word(3);
}

// Turns the rows over, sixty-four at once: for each of `count` groups a row, in which bit b tells whether the group is in the set at place b. With
// two calls of `transpose` it is compiled apart: compiled into its caller it would take its room on the stack for the whole of the check.
fn turn_over(count: usize, rows: &mut [u64])
    requires { (count ≤ table_room) × (length rows.old ≡ table_room) }
    ensures { Turned count rows.old rows.new }
{
    if count <= 64 {
        transpose(&mut rows[0..64]);
        return;
    }
    for j in 0..count.div_ceil(64) {
        transpose(&mut rows[64 * j..64 * j + 64]);
    }
}

// Puts the sets of user i of sixteen.
pub(crate) fn put_user(rows: &mut [u64], i: usize, sets: GroupSets)
    requires { (length rows.old ≡ table_room) × (i < 16) }
    ensures { UserPut i sets rows.old rows.new }
{
    put_set(rows, i, sets.read);
    put_set(rows, 16 + i, sets.write);
    put_set(rows, 32 + i, sets.default);
    put_set(rows, 48 + i, sets.row);
}

// Are all groups of the four sets in `all`?
pub(crate) fn sets_fit(all: Groups, sets: GroupSets) -> bool
    ensures { result ≡ of_sets (λ read write default row. within (union (union read write) (union default row)) (places_of all)) sets }
{
    sets.read
        .union(sets.write)
        .union(sets.default.union(sets.row))
        .within(all)
}

// The lowest of the sixteen users whose groups break the rule of the tree; 16 where there is none. The rows are written over.
pub(crate) fn lowest_bad_user(count: usize, table: &Table, rows: &mut [u64]) -> usize
    requires { OrderedBy count table.now × ((length rows.old ≡ table_room) × RowsFit count rows.old) }
    ensures { result ≡ first_bad (rows_rule (forest_by count table.now) rows.old) 16 0 }
{
    turn_over(count, rows);
    lowest_bad(count, table, rows)
}
