//! Lists of what a file holds, as CSV (RFC 4180, as the crate `csv` reads it): which text is a list of which entries.
#![tactic(auto)]

mod columns;
pub mod entries;
mod fields;
pub mod lists;
