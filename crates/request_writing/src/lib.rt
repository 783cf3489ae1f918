//! Request lists as texts.
#![tactic(auto)]

pub mod laws;
pub mod texts;
