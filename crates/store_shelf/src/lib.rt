//! Where the stores of packages come from.
#![tactic(auto)]

pub mod file_memory;
pub mod memory;
pub mod shelf;
