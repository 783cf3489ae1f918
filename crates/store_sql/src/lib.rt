//! What SQL statements mean under a schema of which only some tables are known.
#![tactic(auto)]

pub mod example;
pub mod forms;
pub mod keys;
pub mod opening;
pub mod resting;
