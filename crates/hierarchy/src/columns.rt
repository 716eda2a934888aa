// The rule of the groups of sixteen users at once. For each group there is a row of bits, which say of every user and set whether the group is in
// it. One pass over the groups, each parent before its children, tells for all of them what lies below.
ghost use Rattle.std.specs.Prelude.{◌≤◌, ◌≡◌, length};
ghost use Rattle.fields.specs.Scan.{first_bad};
ghost use Rattle.hierarchy.specs.Forest.{table_room, forest_by, OrderedBy};
ghost use Rattle.hierarchy.specs.Columns as columns;
ghost use Rattle.hierarchy.specs.Columns.{columns_rule, row_above, Lacked};

use crate::table::{Table, ordered, stored};
use sets::word;

// The row of a group's parent; no bit where it has none.
fn row_above(count: usize, rows: &[u64], p: usize) -> u64
    requires { (count ≤ table_room) × (length rows.now ≡ table_room) }
    ensures { result ≡ row_above count rows.now p }
{
    if p < count { rows[p] } else { 0 }
}

// Which sets a group with the row x had to lie below and does not. Those that it lies below are in `below`. 281470681808895 has the bits
// 0 to 15 and 32 to 47.
fn lacking(x: u64, below: u64) -> u64
    ensures { result ≡ columns.lacking x below }
{
    word::difference(
        word::intersection(x >> 16, 281470681808895) | (x >> 32),
        below,
    )
}

// For each bit whether some group lacks it. The rows become those of what lies below.
fn lacked(count: usize, table: &Table, rows: &mut [u64]) -> u64
    requires { OrderedBy count table.now × (length rows.old ≡ table_room) }
    ensures { Lacked (forest_by count table.now) rows.old result }
{
    let mut all = 0;
    for i in 0..count {
        let g = ordered(table, i);
        let p = stored(table, g);
        let x = rows[g];
        let below = x | row_above(count, rows, p);
        all |= lacking(x, below);
        rows[g] = below;
    }
    all
}

// The lowest of sixteen users whose groups break the rule of the tree; 16 where there is none. The rows are written over.
pub(crate) fn lowest_bad(count: usize, table: &Table, rows: &mut [u64]) -> usize
    requires { OrderedBy count table.now × (length rows.old ≡ table_room) }
    ensures { result ≡ first_bad (columns_rule (forest_by count table.now) rows.old) 16 0 }
{
    let all = lacked(count, table, rows);
    if all == 0 {
        return 16;
    }
    word::first(all | (all >> 16) | (all >> 32))
}
