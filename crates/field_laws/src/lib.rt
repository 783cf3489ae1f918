//! Laws of what an edited file comes home as, each the contract of a function that does nothing.
#![tactic(auto)]

pub mod laws;
