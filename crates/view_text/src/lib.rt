//! The lines that are printed for people who look: a table of packages, and the way of one item.
#![tactic(auto)]

mod columns;
pub mod laws;
pub mod ledgers;
pub mod packages;
pub mod ways;
