//! Worked examples of the model, computed: each is the contract of a function that does nothing.
#![tactic(auto)]

pub mod adding;
pub mod answering;
pub mod frames;
pub mod ledgers;
pub mod lending;
pub mod limits;
pub mod lines;
pub mod opening;
pub mod refusing;
pub mod returning;
pub mod steps;
pub mod story;
