//! What an edited file holds, and the requests that make a package hold it.
#![tactic(auto)]

pub mod asking;
pub mod changes;
pub mod ends;
pub mod held;
pub mod ids;
mod keys;
pub mod known;
pub mod naming;
pub mod parts;
pub mod sharing;
