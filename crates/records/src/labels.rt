// The tag of a label record.
ghost use Rattle.std.specs.Prelude.{◌≡◌, ◌<◌};
ghost use Rattle.header.specs.declared.layout.Kind.TheVariants.{Label};
ghost use Rattle.header.specs.Layout.{labels, Shaped, label_record};
ghost use Rattle.records.specs.Fields.{tag_of};
ghost use Rattle.header.specs.Limits.{Counted};

use fields::numbers::number4;
use header::layout;
use header::layout::{Kind, Shape};

// By the shape of the label records, which a loop or a search works out once.
pub fn tag_at(image: &[u8], shape: Shape, k: usize) -> u32
    requires { Counted image.now × (Shaped image.now Label shape × (k < labels image.now)) }
    ensures { result ≡ tag_of (label_record image.now k) }
{
    number4(layout::shaped_part(image, shape, Kind::Label, k), 0)
}

pub fn tag(image: &[u8], k: usize) -> u32
    requires { Counted image.now × (k < labels image.now) }
    ensures { result ≡ tag_of (label_record image.now k) }
{
    tag_at(image, layout::shape_of(image, Kind::Label), k)
}
