//! The world of live packages that requests change, each in a store of its own.
#![tactic(auto)]

pub mod applying;
pub mod asking;
pub mod crash_laws;
pub mod creating;
pub mod knowing;
mod noting;
pub mod reading;
pub mod world;
