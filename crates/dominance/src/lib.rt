// Two labels beside each other: dominance under a policy, and merging, which takes no image.

#![tactic(auto)]

pub mod comparing;
pub mod merging;

ghost use Rattle.std.specs.Prelude.{◌≡◌};
ghost use Rattle.labels.specs.Label.{marks_of};
ghost use Rattle.dominance.specs.TwoLabels.{dominates_of, strictly_dominates_of, merging_of, merge_of};

use labels::label::Label;
use refusals::Refusal;

// Does label 1 dominate label 2? Its level is at least as high, it has all compartments of label 2, and label 2 has no
// groups, or one of them lies below label 1's; in the release profile label 2 has all groups of label 1. Refusals: 1, 2, 31 to 35, 18.
#[tactic(auto, unfolding(crate::specs::TwoLabels::dominates_of))]
pub fn dominates(image: &[u8], label1: Label, label2: Label) -> Result<bool, Refusal>
    ensures { result ≡ dominates_of image.now (marks_of label1) (marks_of label2) }
{
    comparing::compared(image, label1, label2)?;
    Ok(comparing::is_above(image, label1, label2))
}

// And the labels differ. Refusals: 1, 2, 31 to 35, 18.
#[tactic(auto, unfolding(crate::specs::TwoLabels::strictly_dominates_of))]
pub fn strictly_dominates(image: &[u8], label1: Label, label2: Label) -> Result<bool, Refusal>
    ensures { result ≡ strictly_dominates_of image.now (marks_of label1) (marks_of label2) }
{
    comparing::compared(image, label1, label2)?;
    Ok(comparing::is_strictly_above(image, label1, label2))
}

// One label of two, by three letters: H or L for the level; U, I, M or N for compartments and for groups. Refusal: 17.
#[tactic(auto, unfolding(crate::specs::TwoLabels::merge_of, crate::specs::TwoLabels::letters_rule))]
pub fn merge(label1: Label, label2: Label, letters: &[u8]) -> Result<Label, Refusal>
    ensures { merging_of result ≡ merge_of (marks_of label1) (marks_of label2) letters.now }
{
    if !merging::letters_ok(letters) {
        return Err(Refusal::MergeLetters);
    }
    Ok(merging::merged_label(label1, label2, letters))
}
