//! Which stores an opening has to hold open: those that live.
#![tactic(auto)]

pub mod choosing;
pub mod laws;
mod naming;
