//! What people call packages and sheets, read from CSV.
#![tactic(auto)]

mod columns;
pub mod lists;
mod named;
mod records;
