//! Why a package cannot hold what an edited file holds.
#![tactic(auto)]

pub mod files;
pub mod heads;
pub mod lines;
pub mod reasons;
