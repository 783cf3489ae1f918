//! Which words the command line of `sheetdesk` has, and what `--help` says of them.
#![tactic(auto)]

mod building;
pub mod completions;
pub mod help;
mod tables;
pub mod words;
