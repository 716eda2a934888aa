// An image as blocks: its length, and each block's check and place.

#![tactic(auto)]

mod columns;
pub mod frame;
