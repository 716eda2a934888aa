// Sets of places: compartments as one word, and groups as a type of their own, which may become
// wider without a change above it.
#![tactic(auto)]

pub mod groups;
pub mod transposed;
pub mod word;
