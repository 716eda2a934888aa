// The records of an image: what they hold, and the rules that each keeps.

#![tactic(auto)]

pub mod component_run;
pub mod components;
pub mod existing;
pub mod fresh;
pub mod group_sets;
pub mod kinds;
pub mod label_blocks;
pub mod label_run;
pub mod labels;
pub mod runs;
pub mod user_run;
pub mod users;
