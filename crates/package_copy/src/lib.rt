//! A package in memory that has the rows of another store, so that it may be looked at in its place.
#![tactic(auto)]

pub mod copies;
mod entering;
pub mod package_rows;
