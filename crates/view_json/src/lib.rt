//! What is printed for people who look, as JSON for other programs.
#![tactic(auto)]

mod arrays;
pub mod forms;
pub mod ledgers;
pub mod packages;
pub mod ways;
