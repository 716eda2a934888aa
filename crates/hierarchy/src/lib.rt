// Groups and their parents: rings of parents, and what lies below a set of groups.

#![tactic(auto)]

mod columns;
pub mod group_rules;
pub mod order;
pub mod set_rows;
pub mod table;
mod tree_rules;
pub mod users;
