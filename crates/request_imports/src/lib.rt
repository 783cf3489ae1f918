//! Imports of lists that are read twice in place of being held.
#![tactic(auto)]

pub mod twice;
