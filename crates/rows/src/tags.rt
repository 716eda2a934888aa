// Which tags a map hands out. These functions have no rights, and so cannot ask a verdict.
ghost use Rattle.std.specs.Prelude.{◌≡◌, true};
ghost use Rattle.rows.specs.Scan.{Mapping};
ghost use Rattle.rows.specs.Slots.{Holding, Complete};

use crate::slots::{Slots, add};
use fields::numbers::number4;
use header::layout::Kind;
use header::{layout, walk};
use maps::given::bit_of;

// Puts the tags of all label records whose bit is set into free slots. No where one finds none: then nothing is claimed of the slots. The walk goes
// from record to record, so that nothing is divided here.
pub fn fill(image: &[u8], bits: &[u8], slots: &mut Slots) -> bool
    requires mapping { Mapping image.now bits.now }
    requires holding { Holding image.now bits.now 0 slots.old }
    ensures { result ≡ true → Complete image.now bits.now slots.new }
{
    let shape = layout::shape_of(image, Kind::Label);
    let mut here = walk::record_at(shape, 0);
    for p in 0..shape.count {
        if bit_of(bits, p) {
            let tag = number4(
                layout::placed_part(image, shape, Kind::Label, p, here.at),
                0,
            );
            if !add(slots, tag) {
                return false;
            }
        }
        here = walk::next_record(shape, here, p);
    }
    true
}
