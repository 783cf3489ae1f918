//! The UUIDs that the receipts of a world name, kept in memory, so that of a new one no store is asked.
#![tactic(auto)]

pub mod known;
pub mod laws;
