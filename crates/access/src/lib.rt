// What a user may do with a label, once the image is known to be accepted: rights, verdicts, the rules for new labels.

#![tactic(auto)]

pub mod new_labels;
pub mod record;
pub mod rights;
pub mod verdicts;
