// How labels and sessions stand in bytes, and answers in one number, for the C functions.

#![tactic(auto)]

pub mod answers;
pub mod bytes104;
pub mod bytes48;
