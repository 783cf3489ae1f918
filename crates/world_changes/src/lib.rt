//! What is due is carried out among the members of a world, each of whose stores takes a turn in one transaction.
#![tactic(auto)]

pub mod carrying_out;
pub mod merging;
pub mod splitting;
pub mod taking_turns;
pub mod turning;
