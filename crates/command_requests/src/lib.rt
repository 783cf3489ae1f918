//! The request that a verb makes over a world: what its words name is looked up among the live packages.
#![tactic(auto)]

pub mod contents;
pub mod listing;
pub mod orders;
