// Two labels compared under a policy.
ghost use Rattle.std.specs.Prelude.{◌≡◌};
ghost use Rattle.image.specs.Check.{IsAccepted};
ghost use Rattle.labels.specs.Label.{marks_of};
ghost use Rattle.dominance.specs.TwoLabels.{dominates_groups, dominates, same_label, strictly_dominates, compared_answer};

use header::profile::profile_of;
use hierarchy::group_rules::reach;
use hierarchy::table;
use labels::group_test;
use labels::label::{Label, label_exists};
use refusals::Refusal;
use sets::word;

// May the labels be compared? Refusals: 1, 2, 31 to 35, 18.
#[tactic(auto, unfolding(crate::specs::TwoLabels::compared_answer))]
pub fn compared(image: &[u8], label1: Label, label2: Label) -> Result<(), Refusal>
    ensures { result ≡ compared_answer image.now (marks_of label1) (marks_of label2) }
{
    image::check(image)?;
    if label_exists(image, label1) & label_exists(image, label2) {
        Ok(())
    } else {
        Err(Refusal::NoComponent)
    }
}

// Has label 2 no groups, or does one of them lie below label 1's? In the release profile: are all of label 1's among label 2's?
#[tactic(auto, unfolding(crate::specs::TwoLabels::dominates_groups))]
fn groups_reached(image: &[u8], label1: Label, label2: Label) -> bool
    requires { IsAccepted image.now }
    ensures { result ≡ dominates_groups image.now (marks_of label1) (marks_of label2) }
{
    let mut parents = table::EMPTY;
    table::fill(image, &mut parents);
    let reached = reach(image, &parents, label1.groups);
    group_test::passes(profile_of(image), reached, label2.groups)
}

// Does label 1 dominate label 2?
#[tactic(auto, unfolding(crate::specs::TwoLabels::dominates, crate::specs::TwoLabels::dominates_level, crate::specs::TwoLabels::dominates_compartments))]
pub fn is_above(image: &[u8], label1: Label, label2: Label) -> bool
    requires { IsAccepted image.now }
    ensures { result ≡ dominates image.now (marks_of label1) (marks_of label2) }
{
    (label2.level <= label1.level)
        & word::within(label2.compartments, label1.compartments)
        & groups_reached(image, label1, label2)
}

#[tactic(auto, unfolding(crate::specs::TwoLabels::same_label))]
pub fn same_label(label1: Label, label2: Label) -> bool
    ensures { result ≡ same_label (marks_of label1) (marks_of label2) }
{
    let groups1 = label1.groups;
    let groups2 = label2.groups;
    (label1.level == label2.level)
        & (label1.compartments == label2.compartments)
        & groups1.same(groups2)
}

// And do the labels differ?
#[tactic(auto, unfolding(crate::specs::TwoLabels::strictly_dominates))]
pub fn is_strictly_above(image: &[u8], label1: Label, label2: Label) -> bool
    requires { IsAccepted image.now }
    ensures { result ≡ strictly_dominates image.now (marks_of label1) (marks_of label2) }
{
    is_above(image, label1, label2) & !same_label(label1, label2)
}
