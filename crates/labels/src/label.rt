// A label: the place of its level, and its sets of compartments and groups.
ghost use Rattle.std.specs.Prelude.{◌≡◌};
ghost use Rattle.header.specs.Limits.{Counted};
ghost use Rattle.labels.specs.Label.{marks_of, label_exists};

use header::layout;
use sets::groups::Groups;
use sets::word;

#[derive(Clone, Copy)]
pub struct Label {
    pub level: u8,
    pub compartments: u64,
    pub groups: Groups,
}

// Has the policy every component that the label names?
pub fn label_exists(image: &[u8], label: Label) -> bool
    requires { Counted image.now }
    ensures { result ≡ label_exists image.now (marks_of label) }
{
    ((label.level as usize) < layout::levels(image))
        & word::within(
            label.compartments,
            word::all_below(layout::compartments(image)),
        )
        & label
            .groups
            .within(Groups::all_below(layout::groups(image)))
}
