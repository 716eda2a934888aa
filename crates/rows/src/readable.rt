// The verdict on a row: its tag decides.
ghost use Rattle.std.specs.Prelude.{◌≡◌, ◌≤◌, length};
ghost use Rattle.image.specs.Check.{IsAccepted};
ghost use Rattle.access.specs.Rights.{rights_of};
ghost use Rattle.rows.specs.Table.{row_readable, row_writable};

use crate::scan::RowTest;
use access::rights::View;
use access::verdicts;
use fields::numbers::number4;
use image::given::label_of_tag;

#[inline(always)]
pub fn is_readable(image: &[u8], view: View, row: &[u8]) -> bool
    requires { IsAccepted image.now × (4 ≤ length row.now) }
    ensures { result ≡ row_readable image.now (rights_of view) row.now }
{
    verdicts::reads_at(image, view, label_of_tag(image, number4(row, 0)))
}

pub fn is_writable(image: &[u8], view: View, row: &[u8]) -> bool
    requires { IsAccepted image.now × (4 ≤ length row.now) }
    ensures { result ≡ row_writable image.now (rights_of view) row.now }
{
    verdicts::may_write(image, view, number4(row, 0))
}

// The rows that a view reads.
#[derive(Clone, Copy)]
pub struct Readable<'a> {
    pub image: &'a [u8],
    pub view: View,
    pub ghost accepted: { IsAccepted image.now },
}

impl RowTest for Readable<'_> {
    ghost passes = { λ it row. row_readable it.image.now (rights_of it.view) row };

    #[inline(always)]
    fn passes(&self, row: &[u8]) -> bool {
        is_readable(self.image, self.view, row)
    }
}
