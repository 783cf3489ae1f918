//! Stores of the first version, which had no table of the third mapping: how one is brought to the
//! second.
#![tactic(auto)]

pub mod laws;
pub mod migration;
pub mod names;
mod statements;
pub mod taking_back;
