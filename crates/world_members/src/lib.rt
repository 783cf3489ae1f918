//! The live packages of a world as open stores, and the laws of the model that say what a request does to them.
#![tactic(auto)]

pub mod laws;
pub mod members;
pub mod register_laws;
pub mod reserving;
pub mod step_laws;
