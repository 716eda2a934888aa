// Reading the fields of a record: numbers, unused bytes, names. The crates above call these with parts whose lengths they know.

#![tactic(auto)]

pub mod folded;
pub mod name_field;
pub mod names;
pub mod numbers;
pub mod same;
