// The run of rows that a table holds, and where its rows stand.
ghost use Rattle.std.specs.Prelude.{◌<◌, ◌^◌, ◌≡◌};
ghost use Rattle.rows.specs.Run.{row_offset};
ghost use Rattle.rows.specs.Table.{table_run};

// The run is the whole table.
pub fn run_of<'a>(table: &'a [u8], width: usize) -> &'a [u8]
    ensures { result.now ≡ table_run table.now width }
{
    table
}

// The offset in a run of the row at a place.
pub fn row_offset(width: usize, place: usize) -> usize
    requires { row_offset width place < 2 ^ 64 }
    ensures { result ≡ row_offset width place }
{
    place * width
}
