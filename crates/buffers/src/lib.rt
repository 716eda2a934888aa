// Bytes written over those of a lent buffer.

#![tactic(auto)]

pub mod given;
pub mod parts;
