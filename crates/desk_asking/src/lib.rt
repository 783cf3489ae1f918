//! What a program asks of a desk that serves a folder, and how the answer is read.
#![tactic(auto)]

pub mod answers;
pub mod asking;
pub mod desks;
mod heads;
mod payloads;
mod reading;
