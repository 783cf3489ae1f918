//! The sheets that cover a box on the ground.
#![tactic(auto)]

pub mod covering;
