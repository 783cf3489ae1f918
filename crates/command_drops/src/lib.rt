//! An item is dropped in a world: its links are ended, and then it is deleted, each by a request of its own.
#![tactic(auto)]

pub mod dropping;
pub mod holding;
