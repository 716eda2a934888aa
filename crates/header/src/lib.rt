// The header of an image: its counts, its rules, and where by the counts the blocks and records stand.

#![tactic(auto)]

pub mod contents;
pub mod counts;
pub mod edition;
pub mod layout;
pub mod limits;
pub mod profile;
pub mod rules;
pub mod walk;
