//! What a register keeps, as closed statements, each the contract of a small function that a caller would write.
#![tactic(auto)]

pub mod recording;
pub mod reopening;
pub mod repeating;
pub mod running;
pub mod stopping;
pub mod surviving;
pub mod typing;
