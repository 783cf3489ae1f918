//! Laws of the model, each the contract of a function that does nothing.
#![tactic(auto)]

pub mod laws;
